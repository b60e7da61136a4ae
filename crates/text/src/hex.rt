// Lower-case hexadecimal: two digits to a byte, the high one first.
ghost use Rattle.std.specs.Prelude.{◌≡◌, true, ◌+◌, ◌*◌, ◌<◌, length, get_or};
ghost use Rattle.text.specs.Hex.{digit, is_digit, value, is_hex};
ghost use Rattle.text.specs.Inner.{before, fitting, encoded_in, decoded_of, field_of, decoded_in};

// Writes the digits of as many whole bytes as `out` has room for to its front, leaves the rest of
// `out`, and returns the number of characters written. Both ways write to lent bytes and count them,
// since there is no heap; what is left behind them is promised too. They fill `out` by index: of a slice
// that was lent by `iter_mut` a proof knows the length alone.
pub fn encode(bytes: &[u8], out: &mut [u8]) -> usize
    ensures value { result ≡ 2 * fitting bytes.now out.old }
    ensures out_after { out.new ≡ encoded_in bytes.now out.old }
{
    let n = bytes.len().min(out.len() / 2);
    for i in 0..n {
        let b = bytes[i];
        let k = 2 * i;
        out[k] = digit_of(b / 16);
        out[k + 1] = digit_of(b % 16);
    }
    2 * n
}

// Whether `text` is an even number of lower-case digits.
pub fn is_hex(text: &[u8]) -> bool
    ensures { result ≡ is_hex text.now }
{
    text.len() % 2 == 0 && text.iter().all(|c| is_digit(*c))
}

// Writes the bytes that `text` stands for to the front of `out`, and answers how many they are. Text
// that is not hexadecimal, or stands for more bytes than `out` has, has none, and `out` is as it was.
pub fn decode(text: &[u8], out: &mut [u8]) -> Option<usize>
    ensures value { result ≡ decoded_of text.now out.old }
    ensures out_after { out.new ≡ decoded_in result text.now out.old }
{
    let n = text.len() / 2;
    if out.len() < n || !is_hex(text) {
        return None;
    }
    for i in 0..n {
        out[i] = byte_at(text, 2 * i);
    }
    Some(n)
}

// Decodes the field at the front of `text`, which ends at the first `end`, as `decode` does. Where
// it answers n bytes, what follows the field begins at 2 * n + 1. Text with no `end` has no field.
pub fn decode_field(text: &[u8], end: u8, out: &mut [u8]) -> Option<usize>
    ensures value { result ≡ field_of end text.now out.old }
    ensures out_after { out.new ≡ decoded_in result (before end text.now) out.old }
{
    let n = text.iter().position(|x| *x == end)?;
    decode(&text[..n], out)
}

// The byte whose two digits stand from place k on.
fn byte_at(text: &[u8], k: usize) -> u8
    requires k_value { is_digit (get_or text.now k 0) ≡ true }
    requires k_value_2 { is_digit (get_or text.now (k + 1) 0) ≡ true }
    requires k_in_bounds { k + 1 < length text.now }
    ensures { result ≡ value (get_or text.now k 0) * 16 + value (get_or text.now (k + 1) 0) }
{
    let high = value_of(text[k]);
    let low = value_of(text[k + 1]);
    high * 16 + low
}

// The digit of a number below 16. That of std, `from_digit`, and `to_digit` back, are no plainer: they
// are of `char` and `u32`, answer an `Option`, and take upper case too.
#[tactic(auto, unfolding(crate::specs::Hex::digit))]
fn digit_of(n: u8) -> u8
    requires { n < 16 }
    ensures { result ≡ digit n }
{
    if n < 10 { b'0' + n } else { b'a' - 10 + n }
}

// Whether a character is a lower-case digit. The two patterns are joined by `|`, which has no branch: as one pattern, the digits of a pack took 1.3 times as long to read.
#[tactic(auto, unfolding(crate::specs::Hex::is_digit))]
fn is_digit(c: u8) -> bool
    ensures { result ≡ is_digit c }
{
    matches!(c, b'0'..=b'9') | matches!(c, b'a'..=b'f')
}

// The number that a digit stands for.
#[tactic(auto, using(crate::proofs::Digits::cases, crate::proofs::Digits::value_lt), unfolding(crate::specs::Hex::value))]
fn value_of(c: u8) -> u8
    requires { is_digit c ≡ true }
    ensures value { result ≡ value c }
    ensures upper_bound { result < 16 }
{
    if c <= b'9' { c - b'0' } else { c - (b'a' - 10) }
}
