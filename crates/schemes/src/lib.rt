// What a tweakable enciphering scheme over AES is to its callers, the two schemes that there are, and the calls under a key, written once for both.
#![tactic(auto)]

ghost use Rattle.std.specs.Prelude.{ℕ, ◌≤◌, ◌≡◌, true, [], cond, length, Ok, Err, IfOk};
ghost use Rattle.strings.specs.Cipher.{TweakableCipher, Scheme as TheScheme, Same};
ghost use Rattle.strings.specs.Call.{number_of, looks_at, left_by};
ghost use Rattle.strings.specs.Message.{tests, tests_behind_key, IsCipher, OnePlaintext};
ghost use Rattle.strings.specs.declared.refusal.Refusal.{Refusal};
ghost use Rattle.strings.specs.declared.refusal.Refusal.TheVariants.{KeyLength, TooShort, ForwardTooShort};
ghost use Rattle.primitives.specs.Expanded.{expanded_key};
ghost use Rattle.primitives.specs.declared.aes.ExpandedKey.{ExpandedKey};
ghost use Rattle.hch.specs.Hch.{hch};
ghost use Rattle.hch.specs.Expanded.{hch_under};
ghost use Rattle.forward.specs.Forward.{forward};
ghost use Rattle.forward.specs.Expanded.{forward_under};
ghost use Rattle.schemes.specs.Schemes.{SchemeLaws};
ghost use Rattle.schemes.specs.Laws.{hch_laws, forward_laws};

use primitives::aes;
use primitives::aes::ExpandedKey;
use strings::refusal::Refusal;

// A new scheme is an `impl` more.
pub trait Scheme {
    // The scheme, and the same under a key that was expanded before.
    ghost scheme: { TheScheme };

    ghost under: { ExpandedKey → TheScheme };

    // The least length of a message, and why a shorter one is refused.
    ghost least: { ℕ };

    ghost short: { Refusal };

    // What each `impl` must prove.
    ghost laws: { SchemeLaws scheme under least };

    // Enciphers the message in place under a key that was expanded before, or refuses and leaves it as it is.
    fn encipher_with(expanded: ExpandedKey, tweak: &[u8], message: &mut [u8]) -> Result<(), Refusal>
        ensures value { result ≡ looks_at (tests_behind_key least short tweak.now message.old) }
        ensures message_after { message.new ≡ left_by (number_of result) ((under expanded).encipher [] tweak.now message.old) message.old }
        ensures cipher { IsCipher (under expanded) (number_of result) [] tweak.now (length message.old) };

    // Deciphers the ciphertext in place under a key that was expanded before, or refuses and leaves it as it is.
    fn decipher_with(
        expanded: ExpandedKey,
        tweak: &[u8],
        ciphertext: &mut [u8],
    ) -> Result<(), Refusal>
        ensures value { result ≡ looks_at (tests_behind_key least short tweak.now ciphertext.old) }
        ensures ciphertext_after { ciphertext.new ≡ left_by (number_of result) ((under expanded).decipher [] tweak.now ciphertext.old) ciphertext.old }
        ensures cipher { IsCipher (under expanded) (number_of result) [] tweak.now (length ciphertext.old) };
}

// HCH.
#[derive(Clone, Copy)]
pub struct Hch;

impl Scheme for Hch {
    ghost scheme = { hch };

    ghost under = { hch_under };

    ghost least = { 16 };

    ghost short = { TooShort };

    ghost laws = { hch_laws };

    fn encipher_with(
        expanded: ExpandedKey,
        tweak: &[u8],
        message: &mut [u8],
    ) -> Result<(), Refusal> {
        hch::encipher_with(expanded, tweak, message)
    }

    fn decipher_with(
        expanded: ExpandedKey,
        tweak: &[u8],
        ciphertext: &mut [u8],
    ) -> Result<(), Refusal> {
        hch::decipher_with(expanded, tweak, ciphertext)
    }
}

// The encryption-only scheme.
#[derive(Clone, Copy)]
pub struct Forward;

impl Scheme for Forward {
    ghost scheme = { forward };

    ghost under = { forward_under };

    ghost least = { 33 };

    ghost short = { ForwardTooShort };

    ghost laws = { forward_laws };

    fn encipher_with(
        expanded: ExpandedKey,
        tweak: &[u8],
        message: &mut [u8],
    ) -> Result<(), Refusal> {
        forward::encipher_with(expanded, tweak, message)
    }

    fn decipher_with(
        expanded: ExpandedKey,
        tweak: &[u8],
        ciphertext: &mut [u8],
    ) -> Result<(), Refusal> {
        forward::decipher_with(expanded, tweak, ciphertext)
    }
}

// Whether the scheme takes the key.
pub fn is_key<S: Scheme>(key: &[u8]) -> bool
    ensures { result ≡ S.scheme.is_key key.now }
{
    aes::is_key(key)
}

// Expands a key for many messages, or refuses what is none. The scheme under the expanded key is the scheme under the key, and a tweakable cipher of each length
// that it takes.
pub fn expand<S: Scheme>(key: &[u8]) -> Result<ExpandedKey, Refusal>
    ensures value { result ≡ cond (S.scheme.is_key key.now) (Ok (expanded_key key.now)) (Err KeyLength) }
    ensures same { IfOk result (λ expanded. Same (S.under expanded) [] S.scheme key.now) }
    ensures by_index { IfOk result (λ expanded. (n : ℕ) → S.least ≤ n → TweakableCipher 16 n ((S.under expanded).encipher []) ((S.under expanded).decipher [])) }
{
    ExpandedKey::new(key)
}

// Expands a key as `expand` does; from any other string come zeros, under which the scheme is a tweakable cipher too.
pub fn expand_or_zeros<S: Scheme>(key: &[u8]) -> ExpandedKey
    ensures value { result ≡ expanded_key key.now }
    ensures same { S.scheme.is_key key.now ≡ true → Same (S.under result) [] S.scheme key.now }
    ensures by_index { (n : ℕ) → S.least ≤ n → TweakableCipher 16 n ((S.under result).encipher []) ((S.under result).decipher []) }
{
    ExpandedKey::or_zeros(key)
}

// Enciphers the message in place, or refuses and leaves it as it is.
pub fn encipher<S: Scheme>(key: &[u8], tweak: &[u8], message: &mut [u8]) -> Result<(), Refusal>
    ensures value { result ≡ looks_at (tests S.scheme S.least S.short key.now tweak.now message.old) }
    ensures message_after { message.new ≡ left_by (number_of result) (S.scheme.encipher key.now tweak.now message.old) message.old }
    ensures cipher { IsCipher S.scheme (number_of result) key.now tweak.now (length message.old) }
{
    let expanded = expand::<S>(key)?;
    S::encipher_with(expanded, tweak, message)
}

// Deciphers the ciphertext in place, or refuses and leaves it as it is.
pub fn decipher<S: Scheme>(key: &[u8], tweak: &[u8], ciphertext: &mut [u8]) -> Result<(), Refusal>
    ensures value { result ≡ looks_at (tests S.scheme S.least S.short key.now tweak.now ciphertext.old) }
    ensures ciphertext_after { ciphertext.new ≡ left_by (number_of result) (S.scheme.decipher key.now tweak.now ciphertext.old) ciphertext.old }
    ensures cipher { IsCipher S.scheme (number_of result) key.now tweak.now (length ciphertext.old) }
    ensures one_plaintext { OnePlaintext S.scheme (number_of result) key.now tweak.now ciphertext.old ciphertext.new }
{
    let expanded = expand::<S>(key)?;
    S::decipher_with(expanded, tweak, ciphertext)
}
