// The events that spell a property list, why a call is refused, and where events come from.
#![tactic(auto)]

pub mod drains;
pub mod either;
pub mod errors;
pub mod events;
pub mod kinds;
pub mod labels;
pub mod lists;
pub mod scratch;
pub mod sources;
pub mod uid;
