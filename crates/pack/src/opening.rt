// Opening a sealed block as that of a pack and a place.
ghost use Rattle.std.specs.Prelude.{◌≤◌, ◌≡◌, [], length};
ghost use Rattle.strings.specs.Call.{number_of, looks_at, left_by};
ghost use Rattle.pack.specs.Opening.{failure as failure_of, deciphered_block, tests_between, answer_of, Meaning};
ghost use Rattle.pack.specs.Inner.{Opens};

use crate::cipher;
use layout::Position;
use primitives::aes::ExpandedKey;
use schemes::Scheme;
use strings::refusal::{Refusal, refuse_if};

// What opening looks at between the key and the check, in 01's order.
fn judge(place: u32, block: &[u8]) -> Result<(), Refusal>
    ensures { result ≡ looks_at (tests_between place block.now) }
{
    refuse_if(block.len() != 512, Refusal::BlockLength)?;
    refuse_if(place > 65535, Refusal::PlaceTooHigh)
}

// Why a block that fails its check is refused, by its lent bytes.
fn failure(block: &[u8]) -> Refusal
    ensures { result ≡ failure_of block.now }
{
    if layout::is_zero(block) {
        return Refusal::Blank;
    }
    Refusal::CheckFailed
}

// Opens a block that the first tests pass. What fails its check is enciphered again, which gives the lent bytes back, and only then are these looked at.
fn open_block<S: Scheme>(
    expanded: ExpandedKey,
    position: Position,
    block: &mut [u8],
) -> Result<usize, Refusal>
    requires { (length block.old ≡ 512) × (position.place ≤ 65535) }
    ensures { Opens (S.under expanded) [] position.pack position.place block.old result block.new }
{
    cipher::decipher::<S>(expanded, position, block);
    let Some(u) = position.read(block) else {
        cipher::encipher::<S>(expanded, position, block);
        return Err(failure(block));
    };
    Ok(u)
}

// Opens the lent block by the scheme, under a key that was expanded before, and answers the length of the payload; or refuses and leaves the block as it is.
pub fn open_with<S: Scheme>(
    expanded: ExpandedKey,
    position: Position,
    block: &mut [u8],
) -> Result<usize, Refusal>
    ensures value { result ≡ answer_of (S.under expanded) [] position.pack position.place block.old }
    ensures block_after { block.new ≡ left_by (number_of result) (deciphered_block (S.under expanded) [] position.pack position.place block.old) block.old }
    ensures meaning { Meaning (S.under expanded) (number_of result) [] position.pack position.place block.old block.new }
{
    judge(position.place, block)?;
    open_block::<S>(expanded, position, block)
}

// Opens the lent block by the scheme as that of a pack and a place, and answers the length of the payload; or refuses and leaves the block as it is.
pub fn open<S: Scheme>(key: &[u8], position: Position, block: &mut [u8]) -> Result<usize, Refusal>
    ensures value { result ≡ answer_of S.scheme key.now position.pack position.place block.old }
    ensures block_after { block.new ≡ left_by (number_of result) (deciphered_block S.scheme key.now position.pack position.place block.old) block.old }
    ensures meaning { Meaning S.scheme (number_of result) key.now position.pack position.place block.old block.new }
{
    let expanded = schemes::expand::<S>(key)?;
    open_with::<S>(expanded, position, block)
}
