// Why a text is not written.

// The text takes more cells than are free.
#[derive(Clone, Copy, Debug, PartialEq, Eq)]
pub struct TooFewCells;
