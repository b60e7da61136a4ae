// The field of 2^128 elements and AES, on blocks.
#![tactic(auto)]

pub mod aes;
pub mod field;
mod inv_mixing;
mod inv_sbox;
mod mixed_sbox;
mod sbox;
mod state;
