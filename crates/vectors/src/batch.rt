// The commands of a run of blocks: a list of lengths and a run behind the key, the number of the pack and the first place.
use crate::sealing::Way;
use crate::{BYTES, ENTRIES, fields};
use runs::NotOpened;
use schemes::Scheme;

// Answers a command of a run, or writes nothing.
pub(crate) fn reply<S: Scheme>(rt: &impl Print, way: Way, key: &[u8], rest: &[u8]) -> Option<()> {
    let (start, rest) = fields::position(rest)?;
    let mut bytes = fields::room::<u8, BYTES>(0);
    let (bytes, rest) = fields::field(rest, &mut bytes)?;
    let mut list = fields::room::<u16, ENTRIES>(0);
    let lengths = fields::list_from(bytes, &mut list)?;
    let mut run = fields::room::<u8, BYTES>(0);
    let run = fields::last_field(rest, &mut run)?;
    match way {
        Way::Seal => {
            let answer = runs::seal_run::<S>(key, start, lengths, run);
            fields::put_answer(rt, true, answer, run);
        },
        Way::Open => {
            let answer = runs::open_run::<S>(key, start, lengths, run);
            put_opened(rt, answer, lengths, run);
        },
    }
    Some(())
}

// Writes the number, the place of a block that would not open, the list and the run.
fn put_opened(rt: &impl Print, answer: Result<(), NotOpened>, lengths: &[u16], run: &[u8]) {
    fields::put_number(rt, runs::number(answer) as u64);
    if let Err(NotOpened::Failed(_, place)) = answer {
        fields::put_number(rt, place as u64);
    }
    fields::put_list(rt, lengths);
    fields::put_line(rt, run);
}
