// Finding a block in a lent pack by its place. The block is a part of the pack: nothing is copied.
ghost use Rattle.std.specs.Prelude.{◌≡◌};
ghost use denote.MutBor.{as_bor};
ghost use Rattle.layout.specs.Finding.{is_pack, answer_of, found, BeginsAt, Written};

use strings::refusal::{Refusal, refuse_if};

// Whether a string is 1 to 128 whole blocks.
#[tactic(auto, unfolding(crate::specs::Finding::is_pack))]
pub fn is_pack(s: &[u8]) -> bool
    ensures { result ≡ is_pack s.now }
{
    let n = s.len() / 512;
    s.len() % 512 == 0 && 1 <= n && n <= 128
}

// Whether the block of a place can be found, or why not, in 02's order.
#[tactic(auto, unfolding(crate::specs::Finding::tests))]
pub fn find_answer(pack: &[u8], place: u32) -> Result<(), Refusal>
    ensures { result ≡ answer_of place pack.now }
{
    refuse_if(!is_pack(pack), Refusal::PackLength)?;
    refuse_if(pack.len() / 512 <= place as usize, Refusal::PlaceTooHigh)
}

// The block of a place, to be read, as a part of the lent pack; the empty part where it cannot be found.
#[tactic(auto, using(crate::proofs::Parts::found_within, crate::proofs::Parts::found_part))]
pub fn find(pack: &[u8], place: u32) -> &[u8]
    ensures result_value { result.now ≡ found place pack.now }
    ensures begins_at { BeginsAt place pack.entry result }
{
    let Ok(()) = find_answer(pack, place) else {
        return &pack[0..0];
    };
    let at = 512 * place as usize;
    &pack[at..at + 512]
}

// The same part, to be written to; nothing stands over `&` and `&mut`, so the body is written twice. That the pack is not written to here is for a reader to see: no clause says what is left of a pack whose part is handed out.
pub fn find_mut(pack: &mut [u8], place: u32) -> &mut [u8]
    ensures result_value { result.now ≡ found place pack.old }
    ensures begins_at { BeginsAt place (as_bor pack.entry) (as_bor result) }
    ensures written { Written place (as_bor pack.entry) (as_bor result) }
{
    let Ok(()) = find_answer(pack, place) else {
        return &mut pack[0..0];
    };
    let first = 512 * place as usize;
    &mut pack[first..first + 512]
}
