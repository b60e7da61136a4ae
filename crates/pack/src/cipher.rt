// A scheme on a block of 512 bytes, under the tweak of its position and a key that was expanded before.
ghost use Rattle.std.specs.Prelude.{◌≡◌, [], length};
ghost use Rattle.layout.specs.Layout.{tweak as tweak_of};
ghost use Rattle.pack.specs.Inner.{on_block, CipherAt};

use layout::Position;
use primitives::aes::ExpandedKey;
use schemes::Scheme;

// Enciphers the block in place, or nothing where it has another length.
pub fn encipher<S: Scheme>(expanded: ExpandedKey, position: Position, block: &mut [u8])
    ensures block_after { block.new ≡ on_block ((S.under expanded).encipher [] (tweak_of position.pack position.place)) block.old }
    ensures cipher_at { length block.old ≡ 512 → CipherAt (S.under expanded) [] position.pack position.place }
{
    if block.len() == 512 {
        let _ = S::encipher_with(expanded, &position.tweak(), block);
    }
}

// Deciphers the sealed block in place, or nothing where it has another length.
pub(crate) fn decipher<S: Scheme>(expanded: ExpandedKey, position: Position, sealed: &mut [u8])
    ensures sealed_after { sealed.new ≡ on_block ((S.under expanded).decipher [] (tweak_of position.pack position.place)) sealed.old }
    ensures cipher_at { length sealed.old ≡ 512 → CipherAt (S.under expanded) [] position.pack position.place }
{
    if sealed.len() == 512 {
        let _ = S::decipher_with(expanded, &position.tweak(), sealed);
    }
}
