// Runs of 512-byte blocks: n payloads sealed for n places in turn, and opened again, in one call.
#![tactic(auto)]

mod opening;
mod places;
mod sealing;

pub use opening::{NotOpened, number, open_run};
pub use sealing::seal_run;
