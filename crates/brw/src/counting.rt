// What an evaluation hands back: a block, and the number of products that are counted for it.
ghost use Rattle.std.specs.Prelude.{◌+◌, ◌^◌, ◌<◌, ◌≡◌};
ghost use Rattle.strings.specs.Xor.{◌⊕◌};
ghost use Rattle.blocks.specs.BlockField.{◌·◌};
ghost use Rattle.blocks.specs.Inner.{value as value_of};

use blocks::block::Block;
use primitives::field;

#[derive(Clone, Copy, Debug, PartialEq, Eq)]
pub struct Evaluation {
    pub value: Block,
    pub products: usize,
}

impl Evaluation {
    // A block for which no product was made.
    pub(crate) fn of(value: Block) -> Evaluation
        ensures value_value { result.value ≡ value }
        ensures products_value { result.products ≡ 0 }
    {
        Evaluation { value, products: 0 }
    }

    // The product with a factor: it is made here, and counted.
    pub(crate) fn times(self, factor: Block) -> Evaluation
        requires { self.products + 1 < 2 ^ 64 }
        ensures value_value { value_of result.value ≡ value_of self.value · value_of factor }
        ensures products_value { result.products ≡ self.products + 1 }
    {
        Evaluation {
            value: field::product(self.value, factor),
            products: self.products + 1,
        }
    }

    // The sum of two, for which the products of both were made.
    pub(crate) fn plus(self, other: Evaluation) -> Evaluation
        requires { self.products + other.products < 2 ^ 64 }
        ensures value_value { value_of result.value ≡ value_of self.value ⊕ value_of other.value }
        ensures products_value { result.products ≡ self.products + other.products }
    {
        Evaluation {
            value: self.value.xor(other.value),
            products: self.products + other.products,
        }
    }
}
