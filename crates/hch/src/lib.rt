// HCH of Chakraborty and Sarkar over AES, on lent bytes.
#![tactic(auto)]

ghost use Rattle.std.specs.Prelude.{◌≤◌, ◌≡◌, [], length};
ghost use Rattle.strings.specs.Xor.{◌⊕◌};
ghost use Rattle.blocks.specs.Blocks.{blocks};
ghost use Rattle.blocks.specs.BlockField.{times_x, power_sum};
ghost use Rattle.blocks.specs.Inner.{value};
ghost use Rattle.primitives.specs.Expanded.{under};
ghost use Rattle.strings.specs.Call.{number_of, looks_at, left_by};
ghost use Rattle.hch.specs.Hch.{length_block, behind_first, H as polynomial_hash, encipher, decipher};
ghost use Rattle.hch.specs.Inner.{from_i};
ghost use Rattle.hch.specs.Call.{tests_behind_key, answer_behind_key};
ghost use Rattle.hch.specs.Expanded.{hch_under, IsCipherUnder};

use blocks::block::Block;
use primitives::aes::ExpandedKey;
use primitives::field;
use strings::message;
use strings::refusal::Refusal;

// What a call looks at behind its key, in 01's order: the tests stand in `strings`, for every scheme. One function for both schemes would be no
// plainer: it takes the two words that differ, and so does `message::judge`.
fn judge(tweak: &[u8], message: &[u8]) -> Result<(), Refusal>
    ensures { result ≡ looks_at (tests_behind_key tweak.now message.now) }
{
    message::judge(16, Refusal::TooShort, tweak, message)
}

// A message is lent whole, and what stands behind its first 16 bytes as a part of it: 01's form, which `finish` has. So its length is a fact of four contracts, and no type has it: a
// fact beside a `&mut` gets no proof when the slice is written to.

// Step 1: Q, from R and the length in bytes.
fn hash_q(expanded: ExpandedKey, r: Block, length: usize) -> Block
    requires { length ≤ 4096 }
    ensures { value result ≡ (under expanded).E (value r ⊕ length_block length) }
{
    expanded.encipher(r.xor_bin(8 * length))
}

// Formula (1): the first block by itself, the others where they stand in `message`, behind the first 16 bytes.
fn hash(r: Block, q: Block, first: Block, message: &[u8]) -> Block
    requires { 16 ≤ length message.now }
    ensures { value result ≡ polynomial_hash power_sum (value r) (value q) (value first) (blocks (behind_first message.now)) }
{
    q.xor(first).xor(field::power_sum(r, &message[16..]))
}

// Table II from I on: formula (3) on the bytes from 16 on, and the hash of what they are then, in the place of the first block.
fn finish(expanded: ExpandedKey, r: Block, q: Block, i: Block, first: Block, message: &mut [u8])
    requires { 16 ≤ length message.old }
    ensures { message.new ≡ from_i (under expanded).E power_sum (value r) (value q) (value i) (value first) (behind_first message.old) }
{
    let s = expanded.encipher(i);
    expanded.counter(s, &mut message[16..]);
    hash(r, q, first, message).write(message, 0);
}

// Table II, left.
fn encipher_message(expanded: ExpandedKey, tweak: Block, message: &mut [u8])
    requires { (16 ≤ length message.old) × (length message.old ≤ 4096) }
    ensures { message.new ≡ encipher (under expanded).E times_x power_sum (value tweak) message.old }
{
    let r = expanded.encipher(tweak);
    let q = hash_q(expanded, r, message.len());
    let m1 = hash(r, q, Block::read(message, 0), message);
    let u1 = expanded.encipher(m1);
    let xq = field::times_x(q);
    finish(expanded, r, xq, m1.xor(u1), u1, message);
}

// Table II, right.
fn decipher_message(expanded: ExpandedKey, tweak: Block, message: &mut [u8])
    requires { (16 ≤ length message.old) × (length message.old ≤ 4096) }
    ensures { message.new ≡ decipher (under expanded).E (under expanded).D times_x power_sum (value tweak) message.old }
{
    let r = expanded.encipher(tweak);
    let q = hash_q(expanded, r, message.len());
    let xq = field::times_x(q);
    let u1 = hash(r, xq, Block::read(message, 0), message);
    let m1 = expanded.decipher(u1);
    finish(expanded, r, q, m1.xor(u1), m1, message);
}

// Enciphers the message in place under a key that was expanded before, or refuses and leaves it as it is. Here and below one function over the
// work would be no plainer: what both schemes share is the line of the tests.
pub fn encipher_with(expanded: ExpandedKey, tweak: &[u8], message: &mut [u8]) -> Result<(), Refusal>
    ensures value { result ≡ answer_behind_key tweak.now message.old }
    ensures message_after { message.new ≡ left_by (number_of result) ((hch_under expanded).encipher [] tweak.now message.old) message.old }
    ensures cipher_under { IsCipherUnder (number_of result) expanded tweak.now (length message.old) }
{
    judge(tweak, message)?;
    encipher_message(expanded, Block::read(tweak, 0), message);
    Ok(())
}

// Deciphers the ciphertext in place under a key that was expanded before, or refuses and leaves it as it is.
pub fn decipher_with(
    expanded: ExpandedKey,
    tweak: &[u8],
    ciphertext: &mut [u8],
) -> Result<(), Refusal>
    ensures value { result ≡ answer_behind_key tweak.now ciphertext.old }
    ensures ciphertext_after { ciphertext.new ≡ left_by (number_of result) ((hch_under expanded).decipher [] tweak.now ciphertext.old) ciphertext.old }
    ensures cipher_under { IsCipherUnder (number_of result) expanded tweak.now (length ciphertext.old) }
{
    judge(tweak, ciphertext)?;
    decipher_message(expanded, Block::read(tweak, 0), ciphertext);
    Ok(())
}
