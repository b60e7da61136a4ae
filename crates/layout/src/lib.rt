// The plain block of 512 bytes and its tweak, as 01 lays them out, a block of zeros, and where a block stands in a pack, on lent bytes. Nothing here knows of a cipher.
#![tactic(auto)]

ghost use Rattle.std.specs.Prelude.{◌≤◌, ◌≡◌, cond, eqb, length, take};
ghost use Rattle.std.specs.Bool.{then_some};
ghost use Rattle.strings.specs.Bytes.{bytes, equal};
ghost use Rattle.strings.specs.Inner.{overwrite};
ghost use Rattle.layout.specs.Layout.{check, plain_block, tweak as tweak_of, used, passes, is_zero};
ghost use Rattle.layout.specs.Inner.{fits};

mod finding;

pub use finding::{find, find_answer, find_mut, is_pack};
use strings::number;

// Compares a part of a block with a number in as many bytes, each byte of it, the last first: 0 where they are the same. Over `part.iter().rev()` it is no plainer: what is proved
// at each turn goes by the place.
fn difference(part: &[u8], value: u64) -> u8
    ensures { eqb result 0 ≡ equal part.now (bytes (length part.now) value) }
{
    let mut differ = 0u8;
    let mut rest = value;
    for i in (0..part.len()).rev() {
        differ |= part[i] ^ (rest % 256) as u8;
        rest /= 256;
    }
    differ
}

// Copies a payload to the front of a block, byte by byte, so that the archive for C asks the C library for `memcpy` and `memset` alone.
fn copy_front(payload: &[u8], block: &mut [u8])
    requires { length payload.now ≤ length block.old }
    ensures { block.new ≡ overwrite 0 payload.now block.old }
{
    for (i, b) in payload.iter().enumerate() {
        block[i] = *b;
    }
}

// Where a block stands: the number of its pack, and its place there.
#[derive(Clone, Copy, Debug, PartialEq, Eq)]
pub struct Position {
    pub pack: u64,
    pub place: u32,
}

impl Position {
    // The tweak of a pack and a place.
    #[tactic(auto, unfolding(crate::specs::Layout::tweak, strings::specs::Bytes::bytes, strings::specs::Inner::overwrite))]
    pub fn tweak(self) -> [u8; 16]
        ensures { result ≡ tweak_of self.pack self.place }
    {
        let mut t = [0u8; 16];
        number::put(&mut t, 0, 8, self.pack);
        number::put(&mut t, 12, 4, self.place as u64);
        t
    }

    // Writes the check behind a payload of u bytes.
    #[tactic(auto, using(crate::proofs::Check::check_written))]
    fn put_check(self, u: usize, block: &mut [u8])
        requires { u ≤ 496 }
        ensures { block.new ≡ overwrite u (check u self.pack self.place) block.old }
    {
        number::put(block, u, 496 - u, 0);
        number::put(block, 496, 8, self.pack);
        number::put(block, 504, 4, self.place as u64);
        number::put(block, 508, 2, u as u64);
        number::put(block, 510, 2, 0);
    }

    // Writes the plain block of a payload, or nothing where either has another length.
    #[tactic(auto, using(crate::proofs::Check::plain_written), unfolding(crate::specs::Inner::fits))]
    pub fn write(self, payload: &[u8], block: &mut [u8])
        ensures { block.new ≡ cond (fits payload.now block.old) (plain_block payload.now self.pack self.place) block.old }
    {
        if payload.len() > 496 {
            return;
        }
        if block.len() != 512 {
            return;
        }
        copy_front(payload, block);
        self.put_check(payload.len(), block);
    }

    // Writes the check behind the payload of u bytes that a block begins with, or nothing where either has another length.
    #[tactic(auto, using(crate::proofs::Check::completed, crate::proofs::Check::too_long), unfolding(crate::specs::Inner::fits))]
    pub fn complete(self, u: usize, block: &mut [u8])
        ensures { block.new ≡ cond (fits (take u block.old) block.old) (plain_block (take u block.old) self.pack self.place) block.old }
    {
        if block.len() != 512 {
            return;
        }
        if 496 < u {
            return;
        }
        self.put_check(u, block);
    }

    // The length of the payload of a block that passes its check; all of the check is compared.
    #[tactic(auto, using(crate::proofs::Check::passes_length, crate::proofs::Check::too_much_used))]
    pub fn read(self, block: &[u8]) -> Option<usize>
        ensures { result ≡ then_some (passes self.pack self.place block.now) (used block.now) }
    {
        if block.len() != 512 {
            return None;
        }
        let u = number::get(block, 508, 2) as usize;
        if u > 496 {
            return None;
        }
        let filling_differs = difference(&block[u..496], 0);
        let pack_differs = difference(&block[496..504], self.pack);
        let place_differs = difference(&block[504..508], self.place as u64);
        let zeros_differ = difference(&block[510..512], 0);
        let differ = filling_differs | pack_differs | place_differs | zeros_differ;
        (differ == 0).then_some(u)
    }
}

// Whether a block is 512 zeros; every byte of it is looked at. Which bytes are compared is said by numbers, so that another number is refused by the fact.
#[tactic(auto, using(crate::proofs::Check::zero_length))]
pub fn is_zero(block: &[u8]) -> bool
    ensures { result ≡ is_zero block.now }
{
    block.len() == 512 && difference(&block[0..512], 0) == 0
}
