// The polynomial, by its clauses. This file has no product: each goes through `Evaluation::times`, which makes it and counts it.
ghost use Rattle.std.specs.Prelude.{◌≤◌, ◌<◌, ◌≡◌, length};
ghost use Rattle.blocks.specs.Blocks.{blocks};
ghost use Rattle.blocks.specs.Inner.{value};
ghost use Rattle.brw.specs.Brw.{products};
ghost use Rattle.brw.specs.Inner.{lent_polynomial, SplitOf};

use crate::counting::Evaluation;
use crate::powers;
use blocks::block;

// Where a string of more than 48 bytes is split: k is the largest power of two not above the number of its blocks, and 2 to this exponent; the kth block stands
// from `at` on, and those behind it from `end` on.
#[derive(Clone, Copy)]
struct Split {
    exponent: usize,
    at: usize,
    end: usize,
}

// The exponent from the leading zeros of the number of blocks.
fn split_at(length: usize) -> Split
    requires { 48 < length }
    ensures { SplitOf length result }
{
    let n = length.div_ceil(16);
    let exponent = 63 - usize::leading_zeros(n) as usize;
    let at = 16 * ((1usize << exponent) - 1);
    Split {
        exponent,
        at,
        end: at + (length - at).min(16),
    }
}

// None, one, two and three blocks. Where there is none, a block of zeros is read.
fn few(powers: &[u64; 16], s: &[u8]) -> Evaluation
    requires { length s.now ≤ 48 }
    ensures value_value { value result.value ≡ lent_polynomial powers.now (blocks s.now) }
    ensures products_value { result.products ≡ products (length (blocks s.now)) }
{
    let [first, second, third] = block::read_all::<3>(s);
    if s.len() <= 16 {
        return Evaluation::of(first);
    }
    let t = powers::power(powers, 0);
    if s.len() <= 32 {
        return Evaluation::of(first).times(t).plus(Evaluation::of(second));
    }
    let t2 = powers::power(powers, 1);
    Evaluation::of(t.xor(first))
        .times(t2.xor(second))
        .plus(Evaluation::of(third))
}

// The polynomial of the blocks of a string with the powers that are lent, and the products that were made for it: the blocks before the kth, the kth and those
// behind it, each where they stand.
pub(crate) fn evaluate(powers: &[u64; 16], s: &[u8]) -> Evaluation
    ensures value_value { value result.value ≡ lent_polynomial powers.now (blocks s.now) }
    ensures products_value { result.products ≡ products (length (blocks s.now)) }
{
    if s.len() <= 48 {
        return few(powers, s);
    }
    let split = split_at(s.len());
    let at = split.at;
    let end = split.end;
    let before = evaluate(powers, &s[0..at]);
    let behind = evaluate(powers, &s[end..]);
    let [xk] = block::read_all::<1>(&s[at..]);
    before
        .times(powers::power(powers, split.exponent).xor(xk))
        .plus(behind)
}
