// Cells that hold a link to another cell, and one free list for all types of them.
#![tactic(auto)]

pub mod frees;
pub mod linked;
