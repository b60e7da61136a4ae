// Blocks as polynomials: their products, and what these are modulo x^128 + x^7 + x^2 + x + 1.
#![tactic(auto)]

pub mod reduction;
pub mod unreduced;
