// The laws of the reading: what it promises as a whole, in the format's own words.
#![tactic(auto)]

pub mod laws;
