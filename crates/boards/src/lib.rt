// 01's four functions for the app in C, 02's finding and runs, and 01's four under the encryption-only scheme. include/boards.h declares and explains them; a slice
// is there a pointer and a length, and `failed` a pointer. C has no type parameter, so each call for a scheme is a function, and takes a pack and a place as two numbers. Each answers the number of the call that it makes, 0 where the work was done, and carries that call's promises.
#![tactic(auto)]

ghost use Rattle.std.specs.Prelude.{◌≡◌, length};
ghost use Rattle.strings.specs.Call.{number_of, left_by};
ghost use Rattle.hch.specs.Hch.{enciphered, deciphered, hch as scheme};
ghost use Rattle.hch.specs.Call.{answer_of, IsCipher, OnePlaintext};
ghost use Rattle.strings.specs.Message.{IsCipher as IsCipherOf, OnePlaintext as OnePlaintextOf};
ghost use Rattle.forward.specs.Forward.{enciphered as forward_enciphered, deciphered as forward_deciphered, forward};
ghost use Rattle.forward.specs.Call.{answer_of as answer_of_forward};
ghost use Rattle.layout.specs.Finding.{block_count, answer_of as answer_of_finding};
ghost use Rattle.pack.specs.Sealing.{seal, answer_of as answer_of_sealing};
ghost use Rattle.pack.specs.Opening.{deciphered_block, answer_of as answer_of_opening, OneBlock, Meaning};
ghost use Rattle.runs.specs.Sealing.{payload_at, sealed_run, answer_of as answer_of_run_sealing};
ghost use Rattle.runs.specs.Opening.{number_of as number_of_run, failed_place, deciphered_run, used_lengths, answer_of as answer_of_run_opening, OneRun, Meaning as RunMeaning};

use layout::Position;
use runs::NotOpened;
use schemes::{Forward, Hch};
use strings::refusal::number;

// Enciphers the message in place by HCH.
#[unsafe(no_mangle)]
pub extern "C" fn boards_encipher(key: &[u8], tweak: &[u8], message: &mut [u8]) -> u32
    ensures value { result ≡ number_of (answer_of key.now tweak.now message.old) }
    ensures message_after { message.new ≡ left_by result (enciphered key.now tweak.now message.old) message.old }
    ensures cipher { IsCipher result key.now tweak.now (length message.old) }
{
    number(schemes::encipher::<Hch>(key, tweak, message))
}

// Deciphers the ciphertext in place by HCH. What it leaves where the work was done is the one message that enciphers to what was lent.
#[unsafe(no_mangle)]
pub extern "C" fn boards_decipher(key: &[u8], tweak: &[u8], ciphertext: &mut [u8]) -> u32
    ensures value { result ≡ number_of (answer_of key.now tweak.now ciphertext.old) }
    ensures ciphertext_after { ciphertext.new ≡ left_by result (deciphered key.now tweak.now ciphertext.old) ciphertext.old }
    ensures cipher { IsCipher result key.now tweak.now (length ciphertext.old) }
    ensures one_plaintext { OnePlaintext result key.now tweak.now ciphertext.old ciphertext.new }
{
    number(schemes::decipher::<Hch>(key, tweak, ciphertext))
}

// Seals a payload by HCH into the lent block for a pack and a place. What it leaves where the work was done is the one block that opens to them.
#[unsafe(no_mangle)]
pub extern "C" fn boards_seal(
    key: &[u8],
    payload: &[u8],
    pack: u64,
    place: u32,
    block: &mut [u8],
) -> u32
    ensures value { result ≡ number_of (answer_of_sealing scheme key.now payload.now place block.old) }
    ensures block_after { block.new ≡ left_by result (seal scheme key.now payload.now pack place) block.old }
    ensures one_block { result ≡ 0 → OneBlock scheme key.now payload.now pack place block.new }
{
    number(pack::seal::<Hch>(key, payload, Position { pack, place }, block))
}

// Opens the lent block by HCH as that of a pack and a place. The payload and its length u are read from the block that it leaves.
#[unsafe(no_mangle)]
pub extern "C" fn boards_open(key: &[u8], pack: u64, place: u32, block: &mut [u8]) -> u32
    ensures value { result ≡ number_of (answer_of_opening scheme key.now pack place block.old) }
    ensures block_after { block.new ≡ left_by result (deciphered_block scheme key.now pack place block.old) block.old }
    ensures meaning { Meaning scheme result key.now pack place block.old block.new }
{
    number(pack::open::<Hch>(key, Position { pack, place }, block))
}

// Whether the block of a place can be found in the lent pack. Where it can, it begins at byte 512 * place, and the header's boards_part points there.
#[unsafe(no_mangle)]
pub extern "C" fn boards_find(pack: &[u8], place: u32) -> u32
    ensures { result ≡ number_of (answer_of_finding place pack.now) }
{
    number(layout::find_answer(pack, place))
}

// Seals the payloads at the fronts of the lent blocks, as long as the list says, for a pack and the places from `first` on. What it leaves where the work was done is
// the one run that opens to them.
#[unsafe(no_mangle)]
pub extern "C" fn boards_seal_run(
    key: &[u8],
    pack: u64,
    first: u32,
    lengths: &[u16],
    run: &mut [u8],
) -> u32
    ensures value { result ≡ number_of (answer_of_run_sealing scheme key.now first lengths.now run.old) }
    ensures run_after { run.new ≡ left_by result (sealed_run scheme key.now pack first lengths.now run.old) run.old }
    ensures one_run { result ≡ 0 → OneRun scheme key.now (block_count run.old) (payload_at lengths.now run.old) pack first run.new }
{
    number(runs::seal_run::<Hch>(key, Position { pack, place: first }, lengths, run))
}

// Opens the lent blocks for a pack and the places from `first` on, and writes the payloads' lengths to the list. Where a block will not open, the first such place is
// written to `failed`; nothing else is written there.
#[unsafe(no_mangle)]
pub extern "C" fn boards_open_run(
    key: &[u8],
    pack: u64,
    first: u32,
    lengths: &mut [u16],
    run: &mut [u8],
    failed: &mut u32,
) -> u32
    ensures value { result ≡ number_of_run (answer_of_run_opening scheme key.now pack first lengths.old run.old) }
    ensures run_after { run.new ≡ left_by result (deciphered_run scheme key.now pack first run.old) run.old }
    ensures lengths_after { lengths.new ≡ left_by result (used_lengths scheme key.now pack first run.old) lengths.old }
    ensures failed_after { failed.new ≡ failed_place (answer_of_run_opening scheme key.now pack first lengths.old run.old) failed.old }
    ensures run_meaning { RunMeaning scheme (answer_of_run_opening scheme key.now pack first lengths.old run.old) key.now pack first lengths.old run.old lengths.new run.new }
{
    let opened = runs::open_run::<Hch>(key, Position { pack, place: first }, lengths, run);
    if let Err(NotOpened::Failed(_, place)) = opened {
        *failed = place;
    }
    runs::number(opened)
}

// Enciphers the message in place by the encryption-only scheme.
#[unsafe(no_mangle)]
pub extern "C" fn boards_forward_encipher(key: &[u8], tweak: &[u8], message: &mut [u8]) -> u32
    ensures value { result ≡ number_of (answer_of_forward key.now tweak.now message.old) }
    ensures message_after { message.new ≡ left_by result (forward_enciphered key.now tweak.now message.old) message.old }
    ensures cipher_of { IsCipherOf forward result key.now tweak.now (length message.old) }
{
    number(schemes::encipher::<Forward>(key, tweak, message))
}

// Deciphers the ciphertext in place by the encryption-only scheme. What it leaves where the work was done is the one message that enciphers to what was lent.
#[unsafe(no_mangle)]
pub extern "C" fn boards_forward_decipher(key: &[u8], tweak: &[u8], ciphertext: &mut [u8]) -> u32
    ensures value { result ≡ number_of (answer_of_forward key.now tweak.now ciphertext.old) }
    ensures ciphertext_after { ciphertext.new ≡ left_by result (forward_deciphered key.now tweak.now ciphertext.old) ciphertext.old }
    ensures cipher_of { IsCipherOf forward result key.now tweak.now (length ciphertext.old) }
    ensures one_plaintext_of { OnePlaintextOf forward result key.now tweak.now ciphertext.old ciphertext.new }
{
    number(schemes::decipher::<Forward>(key, tweak, ciphertext))
}

// Seals as boards_seal does, by the encryption-only scheme.
#[unsafe(no_mangle)]
pub extern "C" fn boards_forward_seal(
    key: &[u8],
    payload: &[u8],
    pack: u64,
    place: u32,
    block: &mut [u8],
) -> u32
    ensures value { result ≡ number_of (answer_of_sealing forward key.now payload.now place block.old) }
    ensures block_after { block.new ≡ left_by result (seal forward key.now payload.now pack place) block.old }
    ensures one_block { result ≡ 0 → OneBlock forward key.now payload.now pack place block.new }
{
    number(pack::seal::<Forward>(key, payload, Position { pack, place }, block))
}

// Opens as boards_open does, by the encryption-only scheme.
#[unsafe(no_mangle)]
pub extern "C" fn boards_forward_open(key: &[u8], pack: u64, place: u32, block: &mut [u8]) -> u32
    ensures value { result ≡ number_of (answer_of_opening forward key.now pack place block.old) }
    ensures block_after { block.new ≡ left_by result (deciphered_block forward key.now pack place block.old) block.old }
    ensures meaning { Meaning forward result key.now pack place block.old block.new }
{
    number(pack::open::<Forward>(key, Position { pack, place }, block))
}
