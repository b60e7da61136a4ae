// Four words as 16 bytes, the highest byte of each word first, by names that say so: `From` would not. The loops write by index: `map` takes 3.5 times as long, and `from_fn` needs clauses at its closure to prove.
ghost use Rattle.std.specs.Prelude.{[], ◌∷◌, ◌≡◌, ◌%◌, get_or};
ghost use Rattle.strings.specs.Bytes.{number, bytes};
ghost use Rattle.blocks.specs.Inner.{of_words};

// The word of four bytes, by Horner's rule: with `from_be_bytes` here AES takes 1.5 times as long, since the compiler stores the bytes.
fn word(a: u8, b: u8, c: u8, d: u8) -> u32
    ensures { result ≡ number (a ∷ b ∷ c ∷ d ∷ []) }
{
    (((a as u32) * 256 + b as u32) * 256 + c as u32) * 256 + d as u32
}

// Byte i of a word, counted modulo 4. By a shift: with `to_be_bytes` here AES takes 1.5 times as long, since the compiler stores the bytes.
fn byte(w: u32, i: usize) -> u8
    ensures { result ≡ get_or (bytes 4 w) (i % 4) 0 }
{
    ((w >> (24 - 8 * (i % 4))) % 256) as u8
}

pub fn to_bytes(w: [u32; 4]) -> [u8; 16]
    ensures { result ≡ of_words w }
{
    let mut t = [0u8; 16];
    for i in 0..16usize {
        t[i] = byte(w[i / 4], i);
    }
    t
}

pub fn from_bytes(s: [u8; 16]) -> [u32; 4]
    ensures { of_words result ≡ s }
{
    let mut t = [0u32; 4];
    for c in 0..4usize {
        t[c] = word(s[4 * c], s[4 * c + 1], s[4 * c + 2], s[4 * c + 3]);
    }
    t
}
