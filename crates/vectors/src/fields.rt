// The fields of a line, and the line of an answer.
ghost use Rattle.std.specs.Prelude.{◌≡◌, ◌^◌, ◌<◌, length};

use crate::{BYTES, ROOM};
use blocks::block::Block;
use layout::Position;
use strings::refusal::{self, Refusal};

// Room for N bytes of a field, or entries of a list. The `ensures` gives only the length, which lending the array as a slice needs: the proof of
// a function that made the array would count its elements.
pub(crate) fn room<T: Copy, const N: usize>(zero: T) -> [T; N]
    ensures { N ≡ length result }
{
    [zero; N]
}

// Decodes the field at the front of `line`, which ends at the first space, to the front of `out`, and answers its bytes and what
// follows the space.
#[tactic(auto, using(crate::proofs::Decoded::decoded))]
pub(crate) fn field<'a, 'b>(line: &'a [u8], out: &'b mut [u8]) -> Option<(&'b mut [u8], &'a [u8])> {
    let n = text::hex::decode_field(line, b' ', out)?;
    Some((&mut out[..n], &line[2 * n + 1..]))
}

// Decodes the last field of a line, which ends with it: a space is no digit, so a further field is refused here.
#[tactic(auto, using(crate::proofs::Decoded::decoded))]
pub(crate) fn last_field<'b>(line: &[u8], out: &'b mut [u8]) -> Option<&'b mut [u8]> {
    let n = text::hex::decode(line, out)?;
    Some(&mut out[..n])
}

// Decodes the last field of a line where it has N bytes, no less.
pub(crate) fn last_whole_field<const N: usize>(line: &[u8]) -> Option<[u8; N]> {
    let mut bytes = [0u8; N];
    let field = last_field(line, &mut bytes)?;
    if field.len() < N {
        return None;
    }
    Some(bytes)
}

// Decodes a field of N bytes, no less, and answers them and what follows.
fn whole_field<const N: usize>(line: &[u8]) -> Option<([u8; N], &[u8])> {
    let mut bytes = [0u8; N];
    let (field, rest) = field(line, &mut bytes)?;
    if field.len() < N {
        return None;
    }
    Some((bytes, rest))
}

// Reads the place of a block, a field of 8 digits, and answers it and what follows.
pub(crate) fn place(line: &[u8]) -> Option<(u32, &[u8])> {
    let (place, rest) = whole_field(line)?;
    Some((u32::from_be_bytes(place), rest))
}

// Reads the number of a pack, a field of 16 digits, and a place in it, and answers them and what follows.
pub(crate) fn position(line: &[u8]) -> Option<(Position, &[u8])> {
    let (pack, rest) = whole_field(line)?;
    let pack = u64::from_be_bytes(pack);
    let (place, rest) = place(rest)?;
    Some((Position { pack, place }, rest))
}

// Decodes the blocks that stand in `line`, one space between two, to the front of `data`, and answers their bytes. A field that is
// not a block is refused, and so is one block more than `data` has room for.
pub(crate) fn blocks_from<'b>(line: &[u8], data: &'b mut [u8]) -> Option<&'b [u8]> {
    let count = line.split(|c| *c == b' ').count();
    let data = data.get_mut(..count.checked_mul(16)?)?;
    for (field, block) in line.split(|c| *c == b' ').zip(data.chunks_exact_mut(16)) {
        if text::hex::decode(field, block)? != 16 {
            return None;
        }
    }
    Some(data)
}

// Reads the entries of a list from its bytes, two for each, to the front of `list`. An odd number of bytes is no list.
pub(crate) fn list_from<'b>(bytes: &[u8], list: &'b mut [u16]) -> Option<&'b mut [u16]> {
    if bytes.len() % 2 != 0 {
        return None;
    }
    for (pair, entry) in bytes.chunks_exact(2).zip(list.iter_mut()) {
        *entry = u16::from_be_bytes([pair[0], pair[1]]);
    }
    list.get_mut(..bytes.len() / 2)
}

// Writes to standard output. Where that fails, nothing is left to be done: the program goes on with the next line.
pub(crate) fn put(rt: &impl Print, bytes: &[u8]) {
    let _ = rt.write_all(bytes);
}

// Writes a number in decimal digits, and a space.
pub(crate) fn put_number(rt: &impl Print, n: u64) {
    let _ = print!(rt; "{n} ");
}

// Writes the digits of bytes and one character behind them in one write, by way of `out`, which is lent full of that character.
fn put_by(rt: &impl Print, bytes: &[u8], out: &mut [u8]) {
    let n = text::hex::encode(bytes, out);
    if n < out.len() {
        put(rt, &out[..n + 1]);
    }
}

// The same by way of an array of N characters. A function of its own for each N, since filling a large array takes longer than all else of a short answer.
fn put_within<const N: usize>(rt: &impl Print, bytes: &[u8], end: u8)
    requires { N < 2 ^ 63 }
{
    put_by(rt, bytes, &mut room::<u8, N>(end));
}

// Writes the digits of bytes and `end` behind them: of a block, of a message, or of all that a line stands for.
fn put_bytes(rt: &impl Print, bytes: &[u8], end: u8) {
    match bytes.len() {
        0..=512 => put_within::<1025>(rt, bytes, end),
        513..=4096 => put_within::<8193>(rt, bytes, end),
        _ => put_within::<ROOM>(rt, bytes, end),
    }
}

// Writes a list, and a space, by way of `bytes`, which is lent with room for its entries.
fn put_list_by(rt: &impl Print, list: &[u16], bytes: &mut [u8]) {
    for (pair, entry) in bytes.chunks_exact_mut(2).zip(list) {
        let [high, low] = entry.to_be_bytes();
        pair[0] = high;
        pair[1] = low;
    }
    put_bytes(rt, &bytes[..2 * list.len().min(bytes.len() / 2)], b' ');
}

// The same by way of an array of N bytes.
fn put_list_within<const N: usize>(rt: &impl Print, list: &[u16])
    requires { N < 2 ^ 63 }
{
    put_list_by(rt, list, &mut room::<u8, N>(0));
}

// Writes a list, and a space: of no more entries than a run has blocks, or of all that a line stands for.
pub(crate) fn put_list(rt: &impl Print, list: &[u16]) {
    match list.len() {
        0..=128 => put_list_within::<256>(rt, list),
        _ => put_list_within::<BYTES>(rt, list),
    }
}

// Writes bytes as the end of an answer.
pub(crate) fn put_line(rt: &impl Print, bytes: &[u8]) {
    put_bytes(rt, bytes, b'\n');
}

// Writes a block as a line.
pub(crate) fn put_block(rt: &impl Print, b: Block) {
    let mut bytes = [0u8; 16];
    b.write(&mut bytes, 0);
    put_line(rt, &bytes);
}

// Writes `no` and the number of a refusal.
pub(crate) fn put_refusal(rt: &impl Print, why: Refusal) {
    let number = why.number();
    let _ = println!(rt; "no {number}");
}

// Writes the answer of a call: the bytes, or `no` and the number of the refusal. Where the line lent the bytes, it is the number and
// the bytes as they are left, refused or not. `lent` comes here from the line's first letter; beside
// this only the commands of a pack ask for it, where the rest of the line or the answer differs.
pub(crate) fn put_answer(rt: &impl Print, lent: bool, answer: Result<(), Refusal>, bytes: &[u8]) {
    if lent {
        put_number(rt, refusal::number(answer) as u64);
        put_line(rt, bytes);
    } else {
        match answer {
            Ok(()) => put_line(rt, bytes),
            Err(why) => put_refusal(rt, why),
        }
    }
}
