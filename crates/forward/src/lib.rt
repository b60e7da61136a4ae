// The encryption-only scheme of source document 000 over AES, on lent bytes. Only AES's encryption is used, both ways.
#![tactic(auto)]

ghost use Rattle.std.specs.Prelude.{◌*◌, ◌≤◌, ◌≡◌, [], length, drop};
ghost use Rattle.strings.specs.Xor.{◌⊕◌};
ghost use Rattle.strings.specs.Call.{number_of, looks_at, left_by};
ghost use Rattle.strings.specs.Message.{IsCipher};
ghost use Rattle.blocks.specs.Blocks.{first_block, blocks};
ghost use Rattle.blocks.specs.BlockField.{times_x, power_sum};
ghost use Rattle.blocks.specs.Inner.{value};
ghost use Rattle.primitives.specs.Expanded.{under};
ghost use Rattle.forward.specs.Forward.{behind_two, KeyDef1, Υ, Feistel, swapped_feistel, encipher, decipher};
ghost use Rattle.forward.specs.Inner.{values, hash_key, from_m};
ghost use Rattle.forward.specs.Call.{tests_behind_key, answer_behind_key};
ghost use Rattle.forward.specs.Expanded.{forward_under};

use blocks::block::Block;
use primitives::aes::ExpandedKey;
use primitives::field;
use strings::message;
use strings::refusal::Refusal;

// The hash key of Table 3.
#[derive(Clone, Copy)]
struct Key {
    tau: Block,
    tau_prime: Block,
    beta1: Block,
    beta2: Block,
}

// What a call looks at behind its key, in 02's order: the tests stand in `strings`, for every scheme. One function for both schemes would be no
// plainer: it takes the two words that differ, and so does `message::judge`.
fn judge(tweak: &[u8], message: &[u8]) -> Result<(), Refusal>
    ensures { result ≡ looks_at (tests_behind_key tweak.now message.now) }
{
    message::judge(33, Refusal::ForwardTooShort, tweak, message)
}

// A message is lent whole, and what stands behind its first 32 bytes as a part of it: 01's form, which `finish` has. So its length is a fact of four contracts, and no type has it: a
// fact beside a `&mut` gets no proof when the slice is written to.

// Table 3, KeyDef1, from the tweak and the length in bytes.
fn key_def1(expanded: ExpandedKey, tweak: Block, length: usize) -> Key
    requires { length ≤ 4096 }
    ensures { hash_key result ≡ KeyDef1 (under expanded).E times_x (value tweak) (8 * length) }
{
    let gamma = expanded.encipher(tweak);
    let beta1 = expanded.encipher(gamma.xor_bin(8 * length));
    let beta2 = field::times_x(beta1);
    let tau_prime = expanded.encipher(field::times_x(beta2));
    Key {
        tau: gamma,
        tau_prime,
        beta1,
        beta2,
    }
}

// The first two blocks. `block::read_all` reads them as well, but for two it is called in one place, the loop of the hash, so that the compiler puts it there.
fn first_two(message: &[u8]) -> (Block, Block)
    ensures { values result ≡ (first_block message.now, first_block (drop 16 message.now)) }
{
    (Block::read(message, 0), Block::read(message, 16))
}

// Formula (1), with β added to both blocks: the two by themselves, the others where they stand in `message`, behind the first 32 bytes.
fn hash(tau: Block, beta: Block, two: (Block, Block), message: &[u8]) -> (Block, Block)
    requires { 32 ≤ length message.now }
    ensures { values result ≡ Υ power_sum (value tau) (value two.0 ⊕ value beta) (value two.1 ⊕ value beta) (blocks (behind_two message.now)) }
{
    let z = field::power_sum(tau, &message[32..]);
    (two.0.xor(beta).xor(z), two.1.xor(beta).xor(z))
}

// Table 2. The hash of one block is its product with τ'.
fn feistel(expanded: ExpandedKey, tau_prime: Block, a1: Block, a2: Block) -> (Block, Block)
    ensures { values result ≡ Feistel (under expanded).E power_sum (value tau_prime) (value a1) (value a2) }
{
    let f1 = field::product(a1, tau_prime).xor(a2);
    let f2 = a1.xor(expanded.encipher(f1));
    let b2 = f1.xor(expanded.encipher(f2));
    let b1 = f2.xor(field::product(b2, tau_prime));
    (b1, b2)
}

// Table 2 backwards: what goes in and what comes out is swapped.
fn swapped_feistel(expanded: ExpandedKey, tau_prime: Block, b1: Block, b2: Block) -> (Block, Block)
    ensures { values result ≡ swapped_feistel (under expanded).E power_sum (value tau_prime) (value b1) (value b2) }
{
    let (a2, a1) = feistel(expanded, tau_prime, b2, b1);
    (a1, a2)
}

// The sum of four blocks.
fn sum(a: (Block, Block), b: (Block, Block)) -> Block
    ensures { value result ≡ value a.0 ⊕ value a.1 ⊕ value b.0 ⊕ value b.1 }
{
    a.0.xor(a.1).xor(b.0).xor(b.1)
}

// Table 1 from M on: the modified counter mode on the bytes from 32 on, and the hash of what they are then, in the place of the first two blocks.
fn finish(
    expanded: ExpandedKey,
    key: Key,
    beta: Block,
    m: Block,
    two: (Block, Block),
    message: &mut [u8],
)
    requires { 32 ≤ length message.old }
    ensures { message.new ≡ from_m (under expanded).E times_x power_sum (value key.tau) (value key.beta1) (value beta) (value m) (values two) (behind_two message.old) }
{
    expanded.modified_counter(key.beta1, m, &mut message[32..]);
    let front = hash(key.tau, beta, two, message);
    front.0.write(message, 0);
    front.1.write(message, 16);
}

// Table 1, enciphering.
fn encipher_message(expanded: ExpandedKey, tweak: Block, message: &mut [u8])
    requires { (32 ≤ length message.old) × (length message.old ≤ 4096) }
    ensures { message.new ≡ encipher (under expanded).E times_x power_sum (value tweak) message.old }
{
    let key = key_def1(expanded, tweak, message.len());
    let a = hash(key.tau, key.beta1, first_two(message), message);
    let b = feistel(expanded, key.tau_prime, a.0, a.1);
    finish(expanded, key, key.beta2, sum(a, b), b, message);
}

// Table 1, deciphering: β₁ and β₂ exchanged, and the Feistel with its blocks swapped.
fn decipher_message(expanded: ExpandedKey, tweak: Block, message: &mut [u8])
    requires { (32 ≤ length message.old) × (length message.old ≤ 4096) }
    ensures { message.new ≡ decipher (under expanded).E times_x power_sum (value tweak) message.old }
{
    let key = key_def1(expanded, tweak, message.len());
    let b = hash(key.tau, key.beta2, first_two(message), message);
    let a = swapped_feistel(expanded, key.tau_prime, b.0, b.1);
    finish(expanded, key, key.beta1, sum(a, b), a, message);
}

// Enciphers the message in place under a key that was expanded before, or refuses and leaves it as it is. Here and below one function over the
// work would be no plainer: what both schemes share is the line of the tests.
pub fn encipher_with(expanded: ExpandedKey, tweak: &[u8], message: &mut [u8]) -> Result<(), Refusal>
    ensures value { result ≡ answer_behind_key tweak.now message.old }
    ensures message_after { message.new ≡ left_by (number_of result) ((forward_under expanded).encipher [] tweak.now message.old) message.old }
    ensures cipher { IsCipher (forward_under expanded) (number_of result) [] tweak.now (length message.old) }
{
    judge(tweak, message)?;
    encipher_message(expanded, Block::read(tweak, 0), message);
    Ok(())
}

// Deciphers the ciphertext in place under a key that was expanded before, or refuses and leaves it as it is.
pub fn decipher_with(
    expanded: ExpandedKey,
    tweak: &[u8],
    ciphertext: &mut [u8],
) -> Result<(), Refusal>
    ensures value { result ≡ answer_behind_key tweak.now ciphertext.old }
    ensures ciphertext_after { ciphertext.new ≡ left_by (number_of result) ((forward_under expanded).decipher [] tweak.now ciphertext.old) ciphertext.old }
    ensures cipher { IsCipher (forward_under expanded) (number_of result) [] tweak.now (length ciphertext.old) }
{
    judge(tweak, ciphertext)?;
    decipher_message(expanded, Block::read(tweak, 0), ciphertext);
    Ok(())
}
