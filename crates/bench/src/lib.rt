// What bench/ measures from C: each call has its own name there, so that the two for AES stay two.
#![tactic(auto)]

ghost use Rattle.std.specs.Prelude.{◌≡◌};
ghost use Rattle.strings.specs.Bytes.{bytes};
ghost use Rattle.strings.specs.Inner.{overwrite};
ghost use Rattle.blocks.specs.Blocks.{first_block};
ghost use Rattle.primitives.specs.Expanded.{under};
ghost use Rattle.blocks.specs.BlockField.{◌·◌};

use blocks::block::Block;
use primitives::aes::ExpandedKey;
use primitives::field;

// Enciphers the first 16 bytes by AES with these words and rounds; a shorter string is padded, and the result cut.
#[unsafe(no_mangle)]
pub extern "C" fn bench_aes_encipher(words: &[u32; 60], rounds: usize, data: &mut [u8])
    ensures { «data».new ≡ overwrite 0 (bytes 16 ((under (record { words = words.now; rounds = rounds })).E (first_block «data».old))) «data».old }
{
    let expanded = ExpandedKey {
        words: *words,
        rounds,
    };
    expanded.encipher(Block::read(data, 0)).write(data, 0);
}

// Deciphers the first 16 bytes by AES with these words and rounds; a shorter string is padded, and the result cut.
#[unsafe(no_mangle)]
pub extern "C" fn bench_aes_decipher(words: &[u32; 60], rounds: usize, data: &mut [u8])
    ensures { «data».new ≡ overwrite 0 (bytes 16 ((under (record { words = words.now; rounds = rounds })).D (first_block «data».old))) «data».old }
{
    let expanded = ExpandedKey {
        words: *words,
        rounds,
    };
    expanded.decipher(Block::read(data, 0)).write(data, 0);
}

// The product of the first 16 bytes of both, in the place of those of `data`; a shorter string is padded, and the result cut.
#[unsafe(no_mangle)]
pub extern "C" fn bench_product(a: &[u8], data: &mut [u8])
    ensures { «data».new ≡ overwrite 0 (bytes 16 (first_block a.now · first_block «data».old)) «data».old }
{
    field::product(Block::read(a, 0), Block::read(data, 0)).write(data, 0);
}
