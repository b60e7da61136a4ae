// The product of polynomials with no reduction: carry-less, where the integer product carries.
ghost use Rattle.std.specs.Prelude.{◌≡◌, ℕ, ◌+◌, ◌*◌, ◌/◌, ◌%◌, ◌^◌, ◌<◌, get_or};
ghost use Rattle.strings.specs.Xor.{◌⊕◌};
ghost use Rattle.blocks.specs.Inner.{value};
ghost use Rattle.polynomials.specs.Inner.{carryless, parts, karatsuba, wide_of};

use blocks::block::Block;

// By sixteen integer products. Each word is cut into four parts, whose ones stand four places apart. In the product of two parts at most
// eight ones come together at a place, and their sum does not reach the place four further on: no carry crosses, and the lowest bit of
// each sum is the exclusive or. The parts i and j meet at the places that are i + j modulo 4. The words are masked before they are widened,
// so that the compiler makes the products of two pairs of words at once.
fn words(x: u32, y: u32) -> u64
    ensures { result ≡ carryless 32 x y }
{
    let x0 = (x & 0x11111111) as u64;
    let x1 = (x & 0x22222222) as u64;
    let x2 = (x & 0x44444444) as u64;
    let x3 = (x & 0x88888888) as u64;
    let y0 = (y & 0x11111111) as u64;
    let y1 = (y & 0x22222222) as u64;
    let y2 = (y & 0x44444444) as u64;
    let y3 = (y & 0x88888888) as u64;
    let z0 = (x0 * y0) ^ (x1 * y3) ^ (x2 * y2) ^ (x3 * y1);
    let z1 = (x0 * y1) ^ (x1 * y0) ^ (x2 * y3) ^ (x3 * y2);
    let z2 = (x0 * y2) ^ (x1 * y1) ^ (x2 * y0) ^ (x3 * y3);
    let z3 = (x0 * y3) ^ (x1 * y2) ^ (x2 * y1) ^ (x3 * y0);
    (z0 & 0x1111111111111111)
        ^ (z1 & 0x2222222222222222)
        ^ (z2 & 0x4444444444444444)
        ^ (z3 & 0x8888888888888888)
}

// The low 32 bits of half a block, and the high ones.
fn low_half(x: u64) -> u32
    ensures { result ≡ x % 2 ^ 32 }
{
    (x & 0xffffffff) as u32
}

fn high_half(x: u64) -> u32
    ensures { result ≡ x / 2 ^ 32 }
{
    (x >> 32) as u32
}

// The words that Karatsuba's rule multiplies: the two words of the low half, of the high half and of the sum of the halves, and then the sum
// of the two words of each.
type Parts = [u32; 9];

fn parts(a: Block) -> Parts
    ensures { result ≡ parts a.lo a.hi }
{
    let sum = a.lo ^ a.hi;
    let a0 = low_half(a.lo);
    let a1 = high_half(a.lo);
    let b0 = low_half(a.hi);
    let b1 = high_half(a.hi);
    let c0 = low_half(sum);
    let c1 = high_half(sum);
    [a0, a1, b0, b1, c0, c1, a0 ^ a1, b0 ^ b1, c0 ^ c1]
}

// The product of each part of x with the same part of y, but for the ninth: of an even number the compiler makes two products at once. Written by index, here and below: an
// array's `map` is slower, and `from_fn` needs clauses at its closure to prove.
fn products(x: Parts, y: Parts) -> [u64; 8]
    ensures { (i : ℕ) → i < 8 → get_or result i 0 ≡ carryless 32 (get_or x i 0) (get_or y i 0) }
{
    let mut z = [0u64; 8];
    for i in 0..8usize {
        z[i] = words(x[i], y[i]);
    }
    z
}

// The sums of eight products and of eight others, in a loop of its own: the loop of the products stays so short that the compiler puts it into
// the hash.
fn sums(x: [u64; 8], y: [u64; 8]) -> [u64; 8]
    ensures { (i : ℕ) → i < 8 → get_or result i 0 ≡ get_or x i 0 ⊕ get_or y i 0 }
{
    let mut z = [0u64; 8];
    for i in 0..8usize {
        z[i] = x[i] ^ y[i];
    }
    z
}

// Karatsuba's rule: three products of halves, where the plain way has four. The product of the sums of the halves, plus that of the low halves
// and that of the high ones, is the sum of the two crossed products, which stands in the middle.
fn joined(low: u64, high: u64, both: u64) -> Block
    ensures { value result ≡ karatsuba 32 low high both }
{
    let middle = both ^ low ^ high;
    Block {
        hi: high ^ (middle >> 32),
        lo: low ^ (middle << 32),
    }
}

// A product of two blocks, which is twice as long.
#[derive(Clone, Copy)]
pub struct Wide {
    pub high: Block,
    pub low: Block,
}

// The product of two blocks from those of their parts: by the same rule for their halves, and in each of them for words.
fn assembled(z: [u64; 8], ninth: u64) -> Wide
    ensures { value result.high * 2 ^ 128 + value result.low ≡ wide_of z ninth }
{
    let low = joined(z[0], z[1], z[6]);
    let high = joined(z[2], z[3], z[7]);
    let middle = joined(z[4], z[5], ninth).xor(low).xor(high);
    Wide {
        high: Block {
            hi: high.hi,
            lo: high.lo ^ middle.hi,
        },
        low: Block {
            hi: low.hi ^ middle.lo,
            lo: low.lo,
        },
    }
}

// The product of two blocks.
pub fn blocks(a: Block, b: Block) -> Wide
    ensures { value result.high * 2 ^ 128 + value result.low ≡ carryless 128 (value a) (value b) }
{
    let x = parts(a);
    let y = parts(b);
    assembled(products(x, y), words(x[8], y[8]))
}

// The product of a and b plus that of c and d: what the rule makes of the sums of their products is the sum of what it makes of each.
pub fn two_products(a: Block, b: Block, c: Block, d: Block) -> Wide
    ensures { value result.high * 2 ^ 128 + value result.low ≡ carryless 128 (value a) (value b) ⊕ carryless 128 (value c) (value d) }
{
    let x = parts(a);
    let y = parts(b);
    let u = parts(c);
    let v = parts(d);
    assembled(
        sums(products(x, y), products(u, v)),
        words(x[8], y[8]) ^ words(u[8], v[8]),
    )
}
