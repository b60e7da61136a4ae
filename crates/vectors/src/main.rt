// Runs test vectors: reads lines from standard input and writes an answer for each, a line of
// lower-case hexadecimal digits. A line that is no command with its fields, each parted from the
// next by one space, is answered `no`, and the program goes on with the next.
//
//     x a             a times x
//     m a b           the product of a and b
//     s r a1 .. an    the sum of a1 times r^n down to an times r, n from 0 on
//     ae k a          a enciphered by AES under the key k
//     ad k a          a deciphered
//     he k t d        d enciphered by HCH under the key k and the tweak t
//     hd k t d        d deciphered
//     ps k p n d      d sealed under the key k as the payload of the block at the place n of the pack p
//     po k p n b      the block b opened: the payload's length in decimal, a space, the plain block
//     pf c n          the block at the place n of the pack c, which is found and not opened
//     le k t d        as `he`, on the lent message d
//     ld k t d        as `hd`
//     ls k p n d b    as `ps`, into the lent block b
//     lo k p n b      as `po`, on the lent block b
//     lf c n b        b written to the front of the block at the place n of the lent pack c, cut where that ends
//     fe k t d        as `he`, by the encryption-only scheme
//     fd k t d        as `hd`, by it
//     fs k p n d      as `ps`, by it
//     fo k p n b      as `po`, by it
//     ge k t d        as `le`, by it
//     gd k t d        as `ld`, by it
//     gs k p n d b    as `ls`, by it
//     go k p n b      as `lo`, by it
//     rs k p n l r    the lent run r sealed, with the list of lengths l, for the pack p and the places from n on
//     ro k p n l r    the lent run r opened, its lengths written to the lent list l
//
// In `x`, `m` and `s` every field is a block, and so is the field `a` of `ae` and `ad`. p has 16 digits and n has
// 8; l has 4 for each entry. All other fields, and l, may have any length, and be empty. What the
// library refuses, as a key of neither 16 nor 32 bytes, is answered `no` and the number of the reason.
// Those that lend bytes answer the call's number, 0 where it was done, a space, and all the lent bytes as the
// call leaves them. In front of these, `ro` answers the place of the block that would not open, where
// that is the reason, and the list as it is left, with a space behind each.
#![tactic(auto)]

mod batch;
mod cipher;
mod fields;
mod finding;
mod message;
mod sealing;

use blocks::block::Block;
use primitives::field;
use schemes::{Forward, Hch, Scheme};
use std::io::Read;
use text::part::LineBuffer;

// The most characters that a line may have in front of its line feed: the digits of 132 blocks of 512 bytes, as lines with a pack
// of more than 128 are to be understood.
const LIMIT: usize = 135168;

// The most bytes that the digits of a line stand for.
const BYTES: usize = LIMIT / 2;

// The most entries of a list that they stand for.
const ENTRIES: usize = BYTES / 2;

// The most characters that are written at once: the digits of so many bytes, and the line feed or the space behind them.
const ROOM: usize = LIMIT + 1;

// The most bytes that are read at once.
const CHUNK: usize = 65536;

// A second letter that says nothing where it stands.
#[derive(Clone, Copy, Debug, PartialEq, Eq)]
pub(crate) struct OtherLetter(u8);

// A proved loop has to end, and nothing says that the input does. So the loop counts its turns, to a number that no run reaches.
// A read that fails ends the input. A last line may lack its line feed; after a final line feed there is none.
fn main(rt: HostRuntime) {
    let mut input = rt.stdin();
    let mut line = LineBuffer::<LIMIT>::new();
    let mut chunk = [0u8; CHUNK];
    for _ in 0..u64::MAX {
        let Ok(n) = input.read(&mut chunk) else {
            break;
        };
        if n == 0 {
            break;
        }
        lines(&rt, &mut line, &chunk[..n]);
    }
    if !line.is_empty() {
        answer(&rt, &line);
    }
}

// Goes on with the line under way, answers it where it ends, and so with each that follows.
fn lines(rt: &impl Print, line: &mut LineBuffer<LIMIT>, chunk: &[u8]) {
    let mut rest = chunk;
    while let Some(end) = rest.iter().position(|c| *c == b'\n') {
        line.append(&rest[..end]);
        answer(rt, line);
        line.clear();
        rest = &rest[end + 1..];
    }
    line.append(rest);
}

// Answers a line.
fn answer(rt: &impl Print, line: &LineBuffer<LIMIT>) {
    let done = line.line().and_then(|chars| reply(rt, chars));
    if done.is_none() {
        fields::put(rt, b"no\n");
    }
}

// Writes the answer to a line, or nothing where it is no command with its fields. The command ends at the first space.
fn reply(rt: &impl Print, line: &[u8]) -> Option<()> {
    let end = line.iter().position(|c| *c == b' ')?;
    let rest = &line[end + 1..];
    match &line[..end] {
        [letter] => run_blocks(rt, *letter, rest),
        [b'p', b'f'] => finding::reply(rt, rest),
        [b'l', b'f'] => finding::reply_lent(rt, rest),
        [first, second] => run_keyed(rt, *first, *second, rest),
        _ => None,
    }
}

// A command under a key of any length. Those of `l` and `g` lend their bytes. The first letter is read here, by a pattern: an enum for it would be matched once more. `rt`, the key and the rest of the line
// go together from here on; a struct of them would be made here and taken apart in each.
fn run_keyed(rt: &impl Print, first: u8, second: u8, rest: &[u8]) -> Option<()> {
    let mut key = fields::room::<u8, BYTES>(0);
    let (key, rest) = fields::field(rest, &mut key)?;
    match first {
        b'a' => cipher::reply(rt, second.try_into().ok()?, key, rest),
        b'h' => message::reply::<Hch>(rt, second.try_into().ok()?, false, key, rest),
        b'p' => sealing::reply::<Hch>(rt, second.try_into().ok()?, false, key, rest),
        b'f' => run_either::<Forward>(rt, second, false, key, rest),
        b'l' => run_either::<Hch>(rt, second, true, key, rest),
        b'g' => run_either::<Forward>(rt, second, true, key, rest),
        b'r' => batch::reply::<Hch>(rt, second.try_into().ok()?, key, rest),
        _ => None,
    }
}

// A command that is on a message or of a pack, as its second letter says: each kind reads it as its own `Way`.
fn run_either<S: Scheme>(
    rt: &impl Print,
    letter: u8,
    lent: bool,
    key: &[u8],
    rest: &[u8],
) -> Option<()> {
    if let Ok(way) = cipher::Way::try_from(letter) {
        return message::reply::<S>(rt, way, lent, key, rest);
    }
    sealing::reply::<S>(rt, letter.try_into().ok()?, lent, key, rest)
}

// A command on blocks, by its letter and the number of their bytes.
fn run_blocks(rt: &impl Print, letter: u8, rest: &[u8]) -> Option<()> {
    let mut bytes = fields::room::<u8, BYTES>(0);
    let bytes = fields::blocks_from(rest, &mut bytes)?;
    let a = Block::read(bytes, 0);
    let answer = match (letter, bytes.len()) {
        (b'x', 16) => field::times_x(a),
        (b'm', 32) => field::product(a, Block::read(bytes, 16)),
        (b's', 16..) => field::power_sum(a, &bytes[16..]),
        _ => return None,
    };
    fields::put_block(rt, answer);
    Some(())
}
