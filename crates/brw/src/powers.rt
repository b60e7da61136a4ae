// The powers of the hash key t that the polynomial needs, t, t^2, t^4, .., t^128: as words, two for each, as the clauses of `hash` and `prepare` name them.
ghost use Rattle.std.specs.Prelude.{ℕ, ◌≡◌};
ghost use Rattle.blocks.specs.Inner.{value};
ghost use Rattle.brw.specs.Inner.{power_at, prepared};

use blocks::block::Block;
use primitives::field;

// The power of number i, t^(2^i), or zero where there is none.
pub(crate) fn power(powers: &[u64; 16], i: usize) -> Block
    ensures { value result ≡ power_at powers.now i }
{
    if i < 8 {
        return Block {
            hi: powers[2 * i],
            lo: powers[2 * i + 1],
        };
    }
    Block::ZERO
}

// The powers that n blocks need, each the square of the one before, which is why they are made by index and not by `from_fn`.
pub fn prepare(t: Block, n: usize) -> [u64; 16]
    ensures { (i : ℕ) → power_at result i ≡ prepared (value t) n i }
{
    let mut powers = [0u64; 16];
    let mut square = t;
    powers[0] = t.hi;
    powers[1] = t.lo;
    for i in 1..8usize {
        if 1usize << i > n {
            break;
        }
        square = field::product(square, square);
        powers[2 * i] = square.hi;
        powers[2 * i + 1] = square.lo;
    }
    powers
}
