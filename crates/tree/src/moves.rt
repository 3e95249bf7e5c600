// The moves on trees in cells.
pub mod finding;
pub mod linking;
pub mod making;
pub mod releasing;
pub mod tops;
pub mod walking;
