// Byte strings as blocks, and blocks as words.
#![tactic(auto)]

pub mod block;
pub mod words;
