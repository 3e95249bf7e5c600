// Trees in cells: what values, pairs and texts look like in two arrays, and the small moves on them.
#![tactic(auto)]

pub mod arrays;
pub mod cursor;
pub mod moves;
pub mod nodes;
