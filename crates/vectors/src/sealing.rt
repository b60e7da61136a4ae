// The commands of a pack: a key, the number of the pack, a place, and a payload to seal or a block to open.
use crate::{BYTES, OtherLetter, fields};
use layout::Position;
use schemes::Scheme;

// What is done with a block, or with a run of blocks: a letter of the line, with one `match` in each command, as in `cipher`.
// A type of its own, since the two share no value.
#[derive(Clone, Copy, Debug, PartialEq, Eq)]
pub(crate) enum Way {
    Seal,
    Open,
}

impl TryFrom<u8> for Way {
    type Error = OtherLetter;

    fn try_from(letter: u8) -> Result<Self, OtherLetter> {
        match letter {
            b's' => Ok(Way::Seal),
            b'o' => Ok(Way::Open),
            _ => Err(OtherLetter(letter)),
        }
    }
}

// Answers a command of a pack behind its key, or writes nothing.
pub(crate) fn reply<S: Scheme>(
    rt: &impl Print,
    way: Way,
    lent: bool,
    key: &[u8],
    rest: &[u8],
) -> Option<()> {
    let (position, rest) = fields::position(rest)?;
    match way {
        Way::Seal if lent => seal_lent::<S>(rt, key, position, rest),
        Way::Seal => seal::<S>(rt, key, position, rest),
        Way::Open => open::<S>(rt, lent, key, position, rest),
    }
}

// Seals the last field of the line as a payload. What the block held before it was sealed has no effect: it is lent not zero, so
// that an effect would show.
fn seal<S: Scheme>(rt: &impl Print, key: &[u8], position: Position, rest: &[u8]) -> Option<()> {
    let mut payload = fields::room::<u8, BYTES>(0);
    let payload = fields::last_field(rest, &mut payload)?;
    let mut block = [0xa5u8; 512];
    let answer = pack::seal::<S>(key, payload, position, &mut block);
    fields::put_answer(rt, false, answer, &block);
    Some(())
}

// Seals the payload at the front of the line into the lent block behind it.
fn seal_lent<S: Scheme>(
    rt: &impl Print,
    key: &[u8],
    position: Position,
    rest: &[u8],
) -> Option<()> {
    let mut payload = fields::room::<u8, BYTES>(0);
    let mut block = fields::room::<u8, BYTES>(0);
    let (payload, rest) = fields::field(rest, &mut payload)?;
    let block = fields::last_field(rest, &mut block)?;
    let answer = pack::seal::<S>(key, payload, position, block);
    fields::put_answer(rt, true, answer, block);
    Some(())
}

// Opens the last field of the line as a block. Where the line does not lend it, the payload's length stands in front of the plain block.
fn open<S: Scheme>(
    rt: &impl Print,
    lent: bool,
    key: &[u8],
    position: Position,
    rest: &[u8],
) -> Option<()> {
    let mut block = fields::room::<u8, BYTES>(0);
    let block = fields::last_field(rest, &mut block)?;
    let answer = pack::open::<S>(key, position, block);
    if let Ok(u) = answer {
        if !lent {
            fields::put_number(rt, u as u64);
        }
    }
    fields::put_answer(rt, lent, answer.map(|_| ()), block);
    Some(())
}
