// The reader of ASCII property lists: from bytes to events.
#![tactic(auto)]

pub mod ascii_reader;
pub mod samples;
mod states;
