// The text forms of events, refusals and byte sources, as the programs print them.
#![tactic(auto)]

pub mod batches;
pub mod bytes;
pub mod events;
pub mod hex;
pub mod inputs;
pub mod readings;
