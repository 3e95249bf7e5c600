// The texts of a property list: characters and their encodings, and numbers.
#![tactic(auto)]

pub mod digits;
pub mod escapes;
pub mod examples;
pub mod integer;
pub mod nextstep;
pub mod numbers;
pub mod utf16;
pub mod utf8;
