// The lines of an input that arrives in chunks. What is kept from chunk to chunk is the line under
// way, in a buffer for LONGEST characters.
ghost use Rattle.line.specs.Line.{Written};
ghost use Rattle.line.specs.Input.{last_answer};
ghost use Rattle.line.specs.Inner.{kept_answer, Stepped};

use crate::answering::{self, NoResult};
use crate::{LONGEST, ROOM};
use text::part::LineBuffer;

// What a call of `next` did: how many bytes of the chunk it used up, and how many bytes of an answer
// it wrote: the answer stands at the front of the lent `out`, since there is no heap.
#[derive(Clone, Copy)]
pub struct Step {
    pub used: usize,
    pub written: usize,
}

// Goes on with the line under way up to its line feed, and writes its answer to the front of `out`;
// where `rest` has no line feed, up to the end of `rest`, and writes nothing.
pub fn next(line: &mut LineBuffer<LONGEST>, rest: &[u8], out: &mut [u8; ROOM]) -> Step
    ensures { Stepped line.old.chars line.old.kept rest.now out.old result line.new.chars line.new.kept out.new }
{
    let Some(end) = rest.iter().position(|b| *b == b'\n') else {
        line.append(rest);
        return Step {
            used: rest.len(),
            written: 0,
        };
    };
    line.append(&rest[..end]);
    let written = answer_kept(line, out);
    line.clear();
    Step {
        used: end + 1,
        written,
    }
}

// At the end of the input: answers a last line that lacks its line feed, and returns the number of
// bytes written. After a final line feed there is none, and nothing is written.
pub fn last(line: &LineBuffer<LONGEST>, out: &mut [u8; ROOM]) -> usize
    ensures { Written (last_answer line.now.chars line.now.kept) result out.old out.new }
{
    if line.is_empty() {
        return 0;
    }
    answer_kept(line, out)
}

// Answers the line that is kept. One that is too long is not understood.
fn answer_kept(line: &LineBuffer<LONGEST>, out: &mut [u8; ROOM]) -> usize
    ensures { Written (kept_answer line.now.chars line.now.kept) result out.old out.new }
{
    match line.line() {
        Some(line) => crate::answer(line, out),
        None => answering::refuse(NoResult::NotUnderstood, out),
    }
}
