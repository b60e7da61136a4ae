// A block of 16 bytes as two halves, its first byte the highest of `hi`.
ghost use Rattle.std.specs.Prelude.{ℕ, ◌+◌, ◌*◌, ◌≤◌, ◌<◌, ◌≡◌, true, false, length, drop, slice_index_or};
ghost use Rattle.strings.specs.Xor.{◌⊕◌};
ghost use Rattle.strings.specs.Bytes.{number, bytes};
ghost use Rattle.strings.specs.Inner.{padded, overwrite};
ghost use Rattle.blocks.specs.Blocks.{bin, first_block};
ghost use Rattle.blocks.specs.Inner.{of_words, value};
ghost use Rattle.blocks.specs.declared.block.Block.{Block};

#[derive(Clone, Copy, Debug, PartialEq, Eq)]
pub struct Block {
    pub hi: u64,
    pub lo: u64,
}

// Whether a string of that length has 16 bytes from place `at` on. That may be any number, for no sum is made that could be too large.
fn whole(length: usize, at: usize) -> bool
    ensures { (result ≡ true → at + 16 ≤ length) × (result ≡ false → length < at + 16) }
{
    length.saturating_sub(at) >= 16
}

// The word of the four bytes from place `at` on.
fn word_at(s: &[u8], at: usize) -> u32
    requires { at + 4 ≤ length s.now }
    ensures { result ≡ number (padded 4 (drop at s.now)) }
{
    u32::from_be_bytes([s[at], s[at + 1], s[at + 2], s[at + 3]])
}

// The words of the 16 bytes from place `at` on.
fn words_at(s: &[u8], at: usize) -> [u32; 4]
    requires { at + 16 ≤ length s.now }
    ensures { of_words result ≡ padded 16 (drop at s.now) }
{
    [
        word_at(s, at),
        word_at(s, at + 4),
        word_at(s, at + 8),
        word_at(s, at + 12),
    ]
}

// Writes a word in the four bytes from place `at` on, the last first.
fn put_word(out: &mut [u8], at: usize, w: u32)
    requires { at + 4 ≤ length out.old }
    ensures { out.new ≡ overwrite at (bytes 4 w) out.old }
{
    let [a, b, c, d] = w.to_be_bytes();
    out[at + 3] = d;
    out[at + 2] = c;
    out[at + 1] = b;
    out[at] = a;
}

// Writes four words in the 16 bytes from place `at` on, the last first, so that the compiler joins the most stores.
fn put_words(out: &mut [u8], at: usize, w: [u32; 4])
    requires { at + 16 ≤ length out.old }
    ensures { out.new ≡ overwrite at (of_words w) out.old }
{
    put_word(out, at + 12, w[3]);
    put_word(out, at + 8, w[2]);
    put_word(out, at + 4, w[1]);
    put_word(out, at, w[0]);
}

impl Block {
    pub const ZERO: Block = Block { hi: 0, lo: 0 };

    // The 16 bytes from place `at` on, zero bytes where the string ends. A whole block is read by its words, with no test for each byte,
    // and another one by its halves: of 16 bytes `get` keeps the last 8, which are the low half.
    pub fn read(s: &[u8], at: usize) -> Block
        ensures { value result ≡ first_block (drop at s.now) }
    {
        if whole(s.len(), at) {
            return Block::from_words(words_at(s, at));
        }
        Block {
            hi: strings::number::get(s, at, 8),
            lo: strings::number::get(s, at, 16),
        }
    }

    // Its 16 bytes from place `at` on, cut where `out` ends. Where they all have room they are written by its words, and else the low half in
    // 16 bytes, and the high half over the first 8 of them, so that no place is summed up that could be too large.
    pub fn write(self, out: &mut [u8], at: usize)
        ensures { out.new ≡ overwrite at (bytes 16 (value self)) out.old }
    {
        if whole(out.len(), at) {
            put_words(out, at, self.to_words());
            return;
        }
        strings::number::put(out, at, 16, self.lo);
        strings::number::put(out, at, 8, self.hi);
    }

    // Adds it to the 16 bytes from place `at` on, cut where `out` ends.
    pub fn add_to(self, out: &mut [u8], at: usize)
        ensures { out.new ≡ overwrite at (bytes 16 (first_block (drop at out.old) ⊕ value self)) out.old }
    {
        if whole(out.len(), at) {
            let there = Block::from_words(words_at(out, at));
            put_words(out, at, there.xor(self).to_words());
            return;
        }
        Block::read(out, at).xor(self).write(out, at);
    }

    // Its four words, the highest first. By a name, and not `From`: the name says that they are words, where halves are numbers too.
    pub fn to_words(self) -> [u32; 4]
        ensures { of_words result ≡ bytes 16 (value self) }
    {
        [
            (self.hi >> 32) as u32,
            (self.hi % 0x100000000) as u32,
            (self.lo >> 32) as u32,
            (self.lo % 0x100000000) as u32,
        ]
    }

    // The block of four words.
    pub fn from_words(w: [u32; 4]) -> Block
        ensures { value result ≡ number (of_words w) }
    {
        Block {
            hi: ((w[0] as u64) << 32) + (w[1] as u64),
            lo: ((w[2] as u64) << 32) + (w[3] as u64),
        }
    }

    // The sum of two blocks.
    pub fn xor(self, other: Block) -> Block
        ensures { value result ≡ value self ⊕ value other }
    {
        Block {
            hi: self.hi ^ other.hi,
            lo: self.lo ^ other.lo,
        }
    }

    // The sum with bin(n).
    pub fn xor_bin(self, n: usize) -> Block
        ensures { value result ≡ value self ⊕ bin n }
    {
        Block {
            hi: self.hi,
            lo: self.lo ^ (n as u64),
        }
    }
}

// The first N blocks of a string, as `read` reads them. Where all are whole, they are read with one test for all. Only parts of `s` are lent on: where `s` itself is, the
// compiler keeps its address and length in memory. The array is filled by index: `from_fn` needs clauses at its closure to prove.
pub fn read_all<const N: usize>(s: &[u8]) -> [Block; N]
    ensures { (i : ℕ) → (none : Block) → i < N → value (slice_index_or result i none) ≡ first_block (drop (16 * i) s.now) }
{
    let mut all = [Block::ZERO; N];
    if s.len() / 16 < N {
        let mut rest = &s[0..];
        for i in 0..N {
            all[i] = Block::read(rest, 0);
            rest = &rest[rest.len().min(16)..];
        }
        return all;
    }
    for i in 0..N {
        all[i] = Block::from_words(words_at(s, 16 * i));
    }
    all
}
