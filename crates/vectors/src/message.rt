// The commands of the schemes on messages: a key, a tweak and a message, each of any length.
use crate::cipher::Way;
use crate::{BYTES, fields};
use schemes::Scheme;

// Answers a command of a scheme behind its key, or writes nothing.
pub(crate) fn reply<S: Scheme>(
    rt: &impl Print,
    way: Way,
    lent: bool,
    key: &[u8],
    rest: &[u8],
) -> Option<()> {
    let mut tweak = fields::room::<u8, BYTES>(0);
    let mut message = fields::room::<u8, BYTES>(0);
    let (tweak, rest) = fields::field(rest, &mut tweak)?;
    let message = fields::last_field(rest, &mut message)?;
    let answer = match way {
        Way::Encipher => schemes::encipher::<S>(key, tweak, message),
        Way::Decipher => schemes::decipher::<S>(key, tweak, message),
    };
    fields::put_answer(rt, lent, answer, message);
    Some(())
}
