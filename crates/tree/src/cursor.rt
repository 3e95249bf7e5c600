// Where a walk over a tree stands. `Over` is a case, and no None around the others: a step of a walk that is over is a step too.
#[derive(Clone, Copy)]
pub enum Cursor {
    Over,
    Enter(u16),
    Leave(u16),
}
