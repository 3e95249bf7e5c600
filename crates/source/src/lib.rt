// Byte sources: where the bytes of a property list come from.
#![tactic(auto)]

pub mod buffers;
pub mod decks;
pub mod drains;
pub mod faults;
pub mod repeats;
pub mod slices;
pub mod sources;
pub mod stacks;
