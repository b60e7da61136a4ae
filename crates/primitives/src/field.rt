// The field of 2^128 elements: blocks with x^128 = x^7 + x^2 + x + 1.
ghost use Rattle.std.specs.Prelude.{◌≡◌, ◌-◌, ◌/◌, ◌%◌, ◌^◌, length, drop};
ghost use Rattle.strings.specs.Xor.{◌⊕◌};
ghost use Rattle.blocks.specs.Blocks.{first_block, blocks};
ghost use Rattle.blocks.specs.Field.{times01};
ghost use Rattle.blocks.specs.BlockField.{times_x, ◌·◌, power_sum};
ghost use Rattle.blocks.specs.Inner.{value, horner};

use blocks::block;
use blocks::block::Block;
use polynomials::{reduction, unreduced};

// The word where the highest bit of `high` is 1 and zero where it is 0: the mask is zero less that bit, which the kit compiles with no
// branch.
fn masked(high: u64, word: u64) -> u64
    ensures { result ≡ times01 (high / 2 ^ 63) word }
{
    std::num::wrapping_sub_u64(0, high >> 63) & word
}

// x times a: shifted by one place, and reduced by 87 (hexadecimal) masked by the bit that falls out.
pub fn times_x(a: Block) -> Block
    ensures { value result ≡ times_x (value a) }
{
    let fallen = masked(a.hi, 0x87);
    Block {
        hi: (a.hi << 1) ^ (a.lo >> 63),
        lo: (a.lo << 1) ^ fallen,
    }
}

// The product of two blocks.
pub fn product(a: Block, b: Block) -> Block
    ensures { value result ≡ value a · value b }
{
    reduction::reduced(unreduced::blocks(a, b))
}

// Two steps of Horner's rule at once, on the first two blocks of a string: with R^2, and one reduction for both products.
fn two_steps(r: Block, r2: Block, sum: Block, s: &[u8]) -> Block
    ensures { value result ≡ (value sum ⊕ first_block s.now) · value r2 ⊕ first_block (drop 16 s.now) · value r }
{
    let [first, second] = block::read_all::<2>(s);
    reduction::reduced(unreduced::two_products(sum.xor(first), r2, second, r))
}

// Horner's rule two blocks at a time, as far as there are two whole blocks: what it makes of the sum and of what is left is what it makes of
// all blocks.
fn pairs(r: Block, s: &[u8]) -> Block
    ensures { horner ◌·◌ (value r) (value result) (blocks (drop (length s.now - length s.now % 32) s.now)) ≡ horner ◌·◌ (value r) 0 (blocks s.now) }
{
    let mut sum = Block::ZERO;
    if s.len() < 32 {
        return sum;
    }
    let r2 = product(r, r);
    for pair in s.chunks_exact(32) {
        sum = two_steps(r, r2, sum, pair);
    }
    sum
}

// The sum of the blocks of a string, the last padded, each times its own power of R: 1 for the last block, one more for each before
// it. By Horner's rule: the pairs of whole blocks, and what stands behind them, block by block. Only parts of `s` are lent on: where `s` itself is,
// the compiler keeps its address and length in memory, and each call waits for them.
pub fn power_sum(r: Block, s: &[u8]) -> Block
    ensures { value result ≡ power_sum (value r) (blocks s.now) }
{
    let mut sum = pairs(r, s);
    for block in s[s.len() - s.len() % 32..].chunks(16) {
        sum = product(sum.xor(Block::read(block, 0)), r);
    }
    sum
}
