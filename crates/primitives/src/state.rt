// The steps of AES's rounds, FIPS 197, 5.1 and 5.3. A state is 16 bytes, of which byte r + 4c stands in row r, column c; between the
// rounds it is held as its four columns, each a word.
ghost use Rattle.std.specs.Prelude.{◌≡◌, ◌≤◌, slice_index};
ghost use Rattle.primitives.specs.Aes.{at, state, byte_of, shift_rows, add_round_key, inv_shift_rows, rot_word, round, last_round, inv_round, inv_last_round, Nr, round_key};
ghost use Rattle.primitives.specs.Inner.{Substituted, of_columns, column_by, MixedBy};

use crate::{inv_mixing, inv_sbox, mixed_sbox};
use blocks::words;

// A state by its bytes and by its columns, the words of an expanded key, an S-box, and a table of the column that each byte adds.
pub(crate) type State = [u8; 16];

pub(crate) type Columns = [u32; 4];

pub(crate) type Words = [u32; 60];

pub(crate) type Table = [u8; 256];

pub(crate) type Mixing = [u32; 256];

// The most rounds that there are round keys for.
pub(crate) const MOST_ROUNDS: usize = 14;

// The inverse of SubBytes, by the inverse S-box that is lent. The loops of this file write by index: an array's `map` takes 3.5 times as long, and `from_fn` needs clauses at its
// closure to prove.
fn inv_sub_bytes(table: &Table, s: State) -> State
    ensures { Substituted table.now s result }
{
    let mut t = [0u8; 16];
    for i in 0..16usize {
        t[i] = table[s[i] as usize];
    }
    t
}

// ShiftRows, 5.1.2: the byte of row r, column c comes from column c + r, and so that of place i from place 5 i modulo 16.
fn shift_rows(s: State) -> State
    ensures { result ≡ shift_rows s }
{
    let mut t = [0u8; 16];
    for i in 0..16usize {
        t[i] = s[5 * i % 16];
    }
    t
}

// Each row has four columns, so that three shifts undo one.
fn inv_shift_rows(s: State) -> State
    ensures { result ≡ inv_shift_rows s }
{
    shift_rows(shift_rows(shift_rows(s)))
}

// The column that a byte adds if it stands in row 0.
fn added(table: &Mixing, b: u8) -> u32
    ensures { result ≡ slice_index table.now b }
{
    table[b as usize]
}

// The bytes of row 1 of the columns that the bytes add. In the table of Cipher these are the S-box's, so that this is SubBytes: by a look-up in the S-box itself, as in its
// inverse above, a long message takes 1.07 times as long, since a second table has to be in reach.
fn sub_bytes(table: &Mixing, s: State) -> State
    ensures { result ≡ state (λ r c. byte_of (slice_index table.now (at s r c)) 1) }
{
    let mut t = [0u8; 16];
    for i in 0..16usize {
        t[i] = added(table, s[i]).to_be_bytes()[1];
    }
    t
}

// RotWord, 5.2.
pub(crate) fn rot_word(w: u32) -> u32
    ensures { result ≡ rot_word w }
{
    w.rotate_left(8)
}

// A mixed column: the byte of each row adds its column of the table, turned to that row.
fn column(table: &Mixing, w: u32) -> u32
    ensures { result ≡ column_by table.now w }
{
    let [own, first, second, third] = w.to_be_bytes();
    let e = rot_word(rot_word(rot_word(added(table, first))));
    let f = rot_word(rot_word(added(table, second)));
    added(table, own) ^ e ^ f ^ rot_word(added(table, third))
}

// MixColumns after SubBytes, or InvMixColumns, by the table that is lent.
fn mix_columns(table: &Mixing, w: Columns) -> Columns
    ensures { MixedBy table.now (of_columns w) result }
{
    let mut t = [0u32; 4];
    for c in 0..4usize {
        t[c] = column(table, w[c]);
    }
    t
}

// AddRoundKey with the key of round n, whose words are the columns. The steps have the words and not the key that they stand in: how many rounds there are is not theirs to ask. Here and below n is a number with a bound: a type for it would be made and proved in each turn of the two
// loops that count it, and say no more.
pub(crate) fn add_round_key(words: &Words, n: usize, w: Columns) -> Columns
    requires { n ≤ Nr 8 }
    ensures { of_columns result ≡ add_round_key (round_key words.now n) (of_columns w) }
{
    let mut t = [0u32; 4];
    for c in 0..4usize {
        t[c] = w[c] ^ words[4 * n + c];
    }
    t
}

// Round n. The rows are shifted first, since SubBytes takes each byte by itself.
pub(crate) fn round(words: &Words, n: usize, w: Columns) -> Columns
    requires { n ≤ Nr 8 }
    ensures { of_columns result ≡ round (round_key words.now) n (of_columns w) }
{
    add_round_key(
        words,
        n,
        mix_columns(
            mixed_sbox::table(),
            words::from_bytes(shift_rows(words::to_bytes(w))),
        ),
    )
}

// The last round has no mixing.
pub(crate) fn last_round(words: &Words, n: usize, w: Columns) -> Columns
    requires { n ≤ Nr 8 }
    ensures { of_columns result ≡ last_round (round_key words.now) n (of_columns w) }
{
    add_round_key(
        words,
        n,
        words::from_bytes(shift_rows(sub_bytes(mixed_sbox::table(), words::to_bytes(w)))),
    )
}

// The last round of the inverse cipher, which has no mixing either.
pub(crate) fn inv_last_round(words: &Words, n: usize, w: Columns) -> Columns
    requires { n ≤ Nr 8 }
    ensures { of_columns result ≡ inv_last_round (round_key words.now) n (of_columns w) }
{
    add_round_key(
        words,
        n,
        words::from_bytes(inv_sub_bytes(inv_sbox::table(), inv_shift_rows(words::to_bytes(w)))),
    )
}

// Round n of the inverse cipher.
pub(crate) fn inv_round(words: &Words, n: usize, w: Columns) -> Columns
    requires { n ≤ Nr 8 }
    ensures { of_columns result ≡ inv_round (round_key words.now) n (of_columns w) }
{
    mix_columns(inv_mixing::table(), inv_last_round(words, n, w))
}
