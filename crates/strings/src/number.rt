// Numbers as they stand in a string, big-endian: the first byte is the highest. Both loops go by the place, which the string may not have.
ghost use Rattle.std.specs.Prelude.{◌%◌, ◌^◌, ◌≡◌, drop};
ghost use Rattle.strings.specs.Bytes.{number, bytes};
ghost use Rattle.strings.specs.Inner.{padded, overwrite};

// The number in the n bytes from place `at` on, zero bytes where the string ends; of more than 8 bytes the last 8.
pub fn get(s: &[u8], at: usize, n: usize) -> u64
    ensures { result ≡ number (padded n (drop at s.now)) % 2 ^ 64 }
{
    let there = s.len().saturating_sub(at);
    let mut value = 0u64;
    for i in 0..n {
        if i < there {
            value = (value << 8) + (s[at + i] as u64);
        } else {
            value = value << 8;
        }
    }
    value
}

// Writes a number in n bytes from place `at` on, cut where `out` ends.
pub fn put(out: &mut [u8], at: usize, n: usize, value: u64)
    ensures { out.new ≡ overwrite at (bytes n value) out.old }
{
    let there = out.len().saturating_sub(at);
    let mut rest = value;
    for i in (0..n).rev() {
        if i < there {
            out[at + i] = (rest % 256) as u8;
        }
        rest = rest / 256;
    }
}
