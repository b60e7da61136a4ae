// The commands of AES: a key of any length and one block.
use crate::{OtherLetter, fields};
use blocks::block::Block;
use primitives::aes::ExpandedKey;

// Which way a cipher goes. It is a letter of the line, and each command has one `match` on it: a closure in its place would be chosen
// by the same match.
#[derive(Clone, Copy, Debug, PartialEq, Eq)]
pub(crate) enum Way {
    Encipher,
    Decipher,
}

impl TryFrom<u8> for Way {
    type Error = OtherLetter;

    fn try_from(letter: u8) -> Result<Self, OtherLetter> {
        match letter {
            b'e' => Ok(Way::Encipher),
            b'd' => Ok(Way::Decipher),
            _ => Err(OtherLetter(letter)),
        }
    }
}

// Answers a command of AES behind its key, or writes nothing. For more digits than a block's there is no room.
pub(crate) fn reply(rt: &impl Print, way: Way, key: &[u8], rest: &[u8]) -> Option<()> {
    let bytes = fields::last_whole_field::<16>(rest)?;
    let block = Block::read(&bytes, 0);
    match (ExpandedKey::new(key), way) {
        (Ok(expanded), Way::Encipher) => fields::put_block(rt, expanded.encipher(block)),
        (Ok(expanded), Way::Decipher) => fields::put_block(rt, expanded.decipher(block)),
        (Err(why), _) => fields::put_refusal(rt, why),
    }
    Some(())
}
