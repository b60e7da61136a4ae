// The lines of `boardline` on lent slices: one line and its answer, and the lines of an input that
// arrives in chunks.
#![tactic(auto)]

mod answering;
mod input;

pub use answering::answer;
pub use input::{Step, last, next};

// The most characters that a line has in front of its line feed.
pub const LONGEST: usize = 8300;

// The most bytes of an answer: the digits of 4,096 bytes, and a line feed.
pub const ROOM: usize = 8193;
