// Polynomials modulo x^128 + x^7 + x^2 + x + 1.
ghost use Rattle.std.specs.Prelude.{◌≡◌, ◌+◌, ◌*◌, ◌/◌, ◌%◌, ◌^◌, ◌<◌};
ghost use Rattle.blocks.specs.BlockField.{◌·◌};
ghost use Rattle.blocks.specs.Inner.{value};
ghost use Rattle.polynomials.specs.Inner.{carryless, reduction};

use crate::unreduced::Wide;
use blocks::block::Block;

// The block shifted left by i places: the two halves, with the carry between them; what falls out of the high half is dropped.
fn shifted(a: Block, i: u64) -> Block
    requires { (0 < i) × (i < 64) }
    ensures { value result ≡ value a * 2 ^ i % 2 ^ 128 }
{
    let high = a.hi << i;
    let low = a.lo << i;
    let carry = a.lo >> (64 - i);
    Block {
        hi: high ^ carry,
        lo: low,
    }
}

// h times x^7 + x^2 + x + 1, cut to a block.
fn spread(h: Block) -> Block
    ensures { value result ≡ carryless 128 (value h) 0x87 % 2 ^ 128 }
{
    h.xor(shifted(h, 1)).xor(shifted(h, 2)).xor(shifted(h, 7))
}

// What the cut leaves out, which has at most seven bits.
fn spilt(h: Block) -> u64
    ensures { result ≡ carryless 128 (value h) 0x87 / 2 ^ 128 }
{
    (h.hi >> 63) ^ (h.hi >> 62) ^ (h.hi >> 57)
}

// x^128 times h: h is spread, and what is spilt is spread in its turn, which spills nothing.
fn folded(h: Block) -> Block
    ensures { value result ≡ value h · 0x87 }
{
    let over = Block {
        hi: 0,
        lo: spilt(h),
    };
    spread(h).xor(spread(over))
}

// A polynomial of 256 digits, reduced: its high half is folded into the low one.
pub fn reduced(c: Wide) -> Block
    ensures { value result ≡ reduction 128 0x87 (value c.high * 2 ^ 128 + value c.low) }
{
    c.low.xor(folded(c.high))
}
