// Texts in cells of 24 bytes.
#![tactic(auto)]

pub mod cell;
pub mod errors;
pub mod moves;
mod parts;
