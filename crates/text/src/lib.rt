// Text on lent slices of bytes: lower-case hexadecimal both ways, and the collecting of lines.
#![tactic(auto)]

pub mod hex;
pub mod part;
