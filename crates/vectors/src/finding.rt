// The commands that find a block in a pack: the pack, of any length, and a place, and bytes to write there where the pack is lent.
// They have no key.
use crate::{BYTES, fields};
use strings::refusal::Refusal;

// Answers the command, or writes nothing. The place ends the line.
pub(crate) fn reply(rt: &impl Print, rest: &[u8]) -> Option<()> {
    let mut pack = fields::room::<u8, BYTES>(0);
    let (pack, rest) = fields::field(rest, &mut pack)?;
    let place = u32::from_be_bytes(fields::last_whole_field(rest)?);
    let answer = layout::find_answer(pack, place);
    fields::put_answer(rt, false, answer, layout::find(pack, place));
    Some(())
}

// Answers the command on a lent pack, or writes nothing. No contract says that finding a part leaves the rest of the pack: the answer
// shows all of it.
pub(crate) fn reply_lent(rt: &impl Print, rest: &[u8]) -> Option<()> {
    let mut pack = fields::room::<u8, BYTES>(0);
    let (pack, rest) = fields::field(rest, &mut pack)?;
    let answer = write(pack, rest)?;
    fields::put_answer(rt, true, answer, pack);
    Some(())
}

// Writes the bytes behind the place to the front of the part that is found, or does nothing where these are not understood. The part is
// empty where finding is refused, so that nothing is written. A function of its own, and never inlined: so the bytes are off the stack
// before the answer is written.
#[inline(never)]
fn write(pack: &mut [u8], rest: &[u8]) -> Option<Result<(), Refusal>> {
    let (place, rest) = fields::place(rest)?;
    let mut block = fields::room::<u8, BYTES>(0);
    let block = fields::last_field(rest, &mut block)?;
    let answer = layout::find_answer(pack, place);
    strings::places::write(layout::find_mut(pack, place), 0, block);
    Some(answer)
}
