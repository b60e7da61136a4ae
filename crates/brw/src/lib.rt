// The BRW polynomials of 02's Point 6, evaluated on the blocks of lent bytes, and the hash that is made of them.
#![tactic(auto)]

ghost use Rattle.std.specs.Prelude.{ℕ, ◌≤◌, ◌≡◌, length};
ghost use Rattle.blocks.specs.Blocks.{blocks};
ghost use Rattle.blocks.specs.BlockField.{◌·◌};
ghost use Rattle.blocks.specs.Inner.{value};
ghost use Rattle.brw.specs.Brw.{products, hash as hash_of};
ghost use Rattle.brw.specs.Inner.{power_at, prepared, lent_polynomial};

mod counting;
mod evaluation;
mod powers;

pub use counting::Evaluation;
pub use powers::prepare;
use primitives::field;

// The hash of the blocks of a string, the last padded: t times the polynomial, with the powers of t that are lent, and the products that the polynomial took. The last
// product, by t, is not among them. Where the powers are those that `prepare` makes for as many blocks, up to 255, it is the hash of 02.
pub fn hash(powers: &[u64; 16], s: &[u8]) -> Evaluation
    ensures value_value { value result.value ≡ power_at powers.now 0 · lent_polynomial powers.now (blocks s.now) }
    ensures products_value { result.products ≡ products (length (blocks s.now)) }
    ensures by_index { (t n : ℕ) → ((i : ℕ) → power_at powers.now i ≡ prepared t n i) → length (blocks s.now) ≤ n → n ≤ 255 → value result.value ≡ hash_of t (blocks s.now) }
{
    let polynomial = evaluation::evaluate(powers, s);
    Evaluation {
        value: field::product(powers::power(powers, 0), polynomial.value),
        products: polynomial.products,
    }
}
