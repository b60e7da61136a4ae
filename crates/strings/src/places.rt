// Bytes at a place of a string.
ghost use Rattle.std.specs.Prelude.{◌≡◌};
ghost use Rattle.strings.specs.Inner.{overwrite};

// Writes `s` into `out` from place `at` on, cut where `out` ends.
pub fn write(out: &mut [u8], at: usize, s: &[u8])
    ensures { out.new ≡ overwrite at s.now out.old }
{
    if at < out.len() {
        let n = s.len().min(out.len() - at);
        out[at..at + n].copy_from_slice(&s[..n]);
    }
}
