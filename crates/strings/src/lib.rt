// What stands below blocks: byte strings, and what the calls of all crates have in common.
#![tactic(auto)]

pub mod message;
pub mod number;
pub mod places;
pub mod refusal;
