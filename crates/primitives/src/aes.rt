// AES of FIPS 197 on blocks, with keys of 16 or 32 bytes, and two counter modes on lent bytes.
ghost use Rattle.std.specs.Prelude.{◌≡◌, ◌+◌, ◌-◌, ◌*◌, ◌^◌, ◌<◌, ◌≤◌, ◌++◌, drop, replicate};
ghost use Rattle.strings.specs.Xor.{◌⊕◌};
ghost use Rattle.strings.specs.Bytes.{bytes};
ghost use Rattle.strings.specs.Inner.{overwrite};
ghost use Rattle.blocks.specs.Blocks.{bin, first_block};
ghost use Rattle.blocks.specs.BlockField.{times_x};
ghost use Rattle.blocks.specs.Counter.{masked_bytes, φ};
ghost use Rattle.blocks.specs.Inner.{value};
ghost use Rattle.primitives.specs.Inner.{Table, of_columns};
ghost use Rattle.primitives.specs.Aes.{s_box, sub_word, rcon, temp, key_words, round_key, cipher, inv_cipher, is_key};
ghost use Rattle.primitives.specs.Expanded.{held_words, expanded_key, expansion_of, rounds_done, under};

use crate::{field, sbox, state};
use blocks::block::Block;
use strings::number;
use strings::refusal::{Refusal, refuse_if};

// The first bytes of Rcon, 5.2.
const RCON: [u8; 10] = [0x01, 0x02, 0x04, 0x08, 0x10, 0x20, 0x40, 0x80, 0x1b, 0x36];

// The words of KeyExpansion, four for each round key, and the number of rounds: 10 for a key of 16 bytes, 14 for one of 32. Both may be any: `under_permutation` speaks of all
// of them, and bench/ gives them from C, so that no invariant is put on them.
#[derive(Clone, Copy)]
pub struct ExpandedKey {
    pub words: [u32; 60],
    pub rounds: usize,
}

// SubWord, 5.2.
fn sub_word(table: &state::Table, w: u32) -> u32
    requires { Table s_box table.now }
    ensures { result ≡ sub_word w }
{
    let [a, b, c, d] = w.to_be_bytes();
    u32::from_be_bytes([
        table[a as usize],
        table[b as usize],
        table[c as usize],
        table[d as usize],
    ])
}

// Rcon[j].
fn round_constant(j: usize) -> u32
    requires { (1 ≤ j) × (j ≤ 10) }
    ensures { result ≡ rcon j }
{
    u32::from_be_bytes([RCON[j - 1], 0, 0, 0])
}

// Where the word Nk * j + m stands. Both numbers are counted: with `i / nk` and `i % nk` an expansion takes 1.24 times as long for a key of 16 bytes and 1.3 times for one of 32.
#[derive(Clone, Copy)]
struct Place {
    j: usize,
    m: usize,
}

// The place behind another. Nk is 4 to 8 and j at most 10 in the functions below: numbers with bounds, which types for them would only repeat.
fn next_place(nk: usize, place: Place) -> Place
    requires { (place.m < nk) × (place.j ≤ 10) }
    ensures m_value { nk * result.j + result.m ≡ nk * place.j + place.m + 1 }
    ensures m_lt_nk { result.m < nk }
{
    let m = place.m + 1;
    if m < nk {
        return Place { j: place.j, m };
    }
    Place {
        j: place.j + 1,
        m: 0,
    }
}

// What is added to the word Nk places back to give the word of a place, from the word before it.
fn temp(table: &state::Table, nk: usize, place: Place, before: u32) -> u32
    requires { Table s_box table.now × (1 ≤ place.j) × (place.j ≤ 10) × (place.m < nk) }
    ensures { result ≡ temp nk (nk * place.j + place.m) before }
{
    if place.m == 0 {
        return sub_word(table, state::rot_word(before)) ^ round_constant(place.j);
    }
    if nk <= 6 {
        return before;
    }
    if place.m != 4 {
        return before;
    }
    sub_word(table, before)
}

// The key's own words, and zeros behind them. Here and in the expansion words go by their number, as in FIPS 197, and an array that is longer than they are is filled by index.
fn own_words(key: &[u8], nk: usize) -> state::Words
    requires { nk ≤ 8 }
    ensures { result ≡ key_words nk key.now nk ++ replicate (60 - nk) 0 }
{
    let mut words = [0u32; 60];
    for i in 0..nk {
        words[i] = number::get(key, 4 * i, 4) as u32;
    }
    words
}

// KeyExpansion, 5.2, for a key of Nk words. The word before the next is kept in w too: it would have to be stored before it is read again.
fn key_expansion(key: &[u8], nk: usize) -> state::Words
    requires { (4 ≤ nk) × (nk ≤ 8) }
    ensures { result ≡ held_words nk key.now }
{
    let table = sbox::table();
    let mut words = own_words(key, nk);
    let mut w = words[nk - 1];
    let mut place = Place { j: 1, m: 0 };
    for i in nk..4 * (nk + 7) {
        w = words[i - nk] ^ temp(table, nk, place, w);
        words[i] = w;
        place = next_place(nk, place);
    }
    words
}

// Whether a string is a key.
pub fn is_key(key: &[u8]) -> bool
    ensures { result ≡ is_key key.now }
{
    key.len() == 16 || key.len() == 32
}

// The number of rounds that are done: at least two, and no more than there are round keys.
fn rounds_done(rounds: usize) -> usize
    ensures { result ≡ rounds_done rounds }
{
    if rounds > state::MOST_ROUNDS {
        return state::MOST_ROUNDS;
    }
    if rounds < 2 {
        return 2;
    }
    rounds
}

impl ExpandedKey {
    // Expands a key, by its length one of 16 bytes or of 32; from any other string come zeros, and only the number of rounds, 0, tells that. `new` refuses it.
    pub fn or_zeros(key: &[u8]) -> ExpandedKey
        ensures { result ≡ expanded_key key.now }
    {
        if !is_key(key) {
            return ExpandedKey {
                words: [0; 60],
                rounds: 0,
            };
        }
        let nk = key.len() / 4;
        let words = key_expansion(key, nk);
        ExpandedKey {
            words,
            rounds: nk + 6,
        }
    }

    // Expands a key; any other string is refused.
    pub fn new(key: &[u8]) -> Result<ExpandedKey, Refusal>
        ensures { result ≡ expansion_of key.now }
    {
        refuse_if(!is_key(key), Refusal::KeyLength)?;
        Ok(ExpandedKey::or_zeros(key))
    }

    // Cipher, 5.1. Here and in its inverse rounds go by their number, as in FIPS 197, and the state of a round has a name first: the checker covers no call whose result is laid in an array.
    fn cipher(&self, w: state::Columns) -> state::Columns
        ensures { of_columns result ≡ cipher (round_key self.now.words) (rounds_done self.now.rounds) (of_columns w) }
    {
        let rounds = rounds_done(self.rounds);
        let mut t = state::add_round_key(&self.words, 0, w);
        for n in 1..rounds {
            let next = state::round(&self.words, n, t);
            t = next;
        }
        state::last_round(&self.words, rounds, t)
    }

    // InvCipher, 5.3: the round keys backwards.
    fn inv_cipher(&self, w: state::Columns) -> state::Columns
        ensures { of_columns result ≡ inv_cipher (round_key self.now.words) (rounds_done self.now.rounds) (of_columns w) }
    {
        let rounds = rounds_done(self.rounds);
        let mut t = state::add_round_key(&self.words, rounds, w);
        for n in (1..rounds).rev() {
            let next = state::inv_round(&self.words, n, t);
            t = next;
        }
        state::inv_last_round(&self.words, 0, t)
    }

    // E of a block, of a key that is lent. A function of its own beside `encipher`, so that the compiler puts `cipher` into it: it is called in one place.
    fn enciphered(&self, block: Block) -> Block
        ensures { value result ≡ (under self.now).E (value block) }
    {
        Block::from_words(self.cipher(block.to_words()))
    }

    // E of a block.
    pub fn encipher(self, block: Block) -> Block
        ensures { value result ≡ (under self).E (value block) }
    {
        self.enciphered(block)
    }

    // Adds E(input) to block i, cut where `message` ends.
    fn mask(&self, input: Block, message: &mut [u8], i: usize)
        requires { 16 * i < 2 ^ 64 }
        ensures { message.new ≡ overwrite (16 * i) (bytes 16 (first_block (drop (16 * i) message.old) ⊕ (under self.now).E (value input))) message.old }
    {
        self.enciphered(input).add_to(message, 16 * i);
    }

    // Counter mode on lent bytes, block by block where they stand, by their number, since of a slice that was lent by `chunks_mut` a proof knows the length alone; the last cut as it was: E(s ⊕ bin(i)) is added to block i, from 1 on.
    pub fn counter(self, s: Block, message: &mut [u8])
        ensures { message.new ≡ masked_bytes (λ i. (under self).E (value s ⊕ bin i)) 1 message.old }
    {
        for i in 0..message.len().div_ceil(16) {
            self.mask(s.xor_bin(i + 1), message, i);
        }
    }

    // The modified counter mode of 000 on lent bytes, in the same way: E(x^i β ⊕ s) is added to block i, from 0 on. A loop of its own: one over a closure for the inputs would
    // need clauses on how its state moves from block to block, and be longer than both.
    pub fn modified_counter(self, beta: Block, s: Block, message: &mut [u8])
        ensures { message.new ≡ masked_bytes (λ i. (under self).E (φ times_x (value beta) i ⊕ value s)) 0 message.old }
    {
        let mut phi = beta;
        for i in 0..message.len().div_ceil(16) {
            self.mask(phi.xor(s), message, i);
            phi = field::times_x(phi);
        }
    }

    // D of a block.
    #[inline(never)]
    pub fn decipher(self, block: Block) -> Block
        ensures { value result ≡ (under self).D (value block) }
    {
        Block::from_words(self.inv_cipher(block.to_words()))
    }
}
