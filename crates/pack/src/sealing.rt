// Sealing a payload for a pack and a place.
ghost use Rattle.std.specs.Prelude.{◌≡◌};
ghost use Rattle.strings.specs.Call.{number_of, looks_at, left_by};
ghost use Rattle.pack.specs.Sealing.{seal as sealed_by, tests_behind_key, answer_of};
ghost use Rattle.pack.specs.Opening.{OneBlock};

use crate::cipher;
use layout::Position;
use schemes::Scheme;
use strings::refusal::{Refusal, refuse_if};

// What sealing looks at behind the key, in 01's order.
fn judge(payload: &[u8], place: u32, block: &[u8]) -> Result<(), Refusal>
    ensures { result ≡ looks_at (tests_behind_key payload.now place block.now) }
{
    refuse_if(block.len() != 512, Refusal::BlockLength)?;
    refuse_if(payload.len() > 496, Refusal::PayloadTooLong)?;
    refuse_if(place > 65535, Refusal::PlaceTooHigh)
}

// Seals a payload into the lent block by the scheme, for a pack and a place, or refuses and leaves the block as it is.
pub fn seal<S: Scheme>(
    key: &[u8],
    payload: &[u8],
    position: Position,
    block: &mut [u8],
) -> Result<(), Refusal>
    ensures value { result ≡ answer_of S.scheme key.now payload.now position.place block.old }
    ensures block_after { block.new ≡ left_by (number_of result) (sealed_by S.scheme key.now payload.now position.pack position.place) block.old }
    ensures one_block { number_of result ≡ 0 → OneBlock S.scheme key.now payload.now position.pack position.place block.new }
{
    let expanded = schemes::expand::<S>(key)?;
    judge(payload, position.place, block)?;
    position.write(payload, block);
    cipher::encipher::<S>(expanded, position, block);
    Ok(())
}
