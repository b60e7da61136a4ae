// The 512-byte block: a payload sealed for a pack and a place, and opened again.
#![tactic(auto)]

pub mod cipher;
mod opening;
mod sealing;

pub use opening::{open, open_with};
pub use sealing::seal;
