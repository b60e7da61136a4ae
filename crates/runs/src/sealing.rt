// Sealing a run: each payload stands at the front of its block.
ghost use Rattle.std.specs.Prelude.{◌≤◌, ◌≡◌, [], length, take};
ghost use Rattle.strings.specs.Call.{number_of, looks_at, left_by};
ghost use Rattle.layout.specs.Finding.{block_count};
ghost use Rattle.pack.specs.Sealing.{seal as sealed_by};
ghost use Rattle.runs.specs.Sealing.{some_over, payload_at, sealed_run, tests_behind_key, answer_of};
ghost use Rattle.runs.specs.Opening.{OneRun};
ghost use Rattle.runs.specs.Inner.{Sealable};

use crate::places;
use layout::Position;
use primitives::aes::ExpandedKey;
use schemes::Scheme;
use strings::refusal::{Refusal, refuse_if};

// Whether an entry of the list is over 496.
fn some_over(lengths: &[u16]) -> bool
    ensures { result ≡ some_over 496 lengths.now }
{
    lengths.iter().any(|u| *u > 496)
}

// What sealing looks at behind the key, in 02's order.
fn judge(first: u32, lengths: &[u16], run: &[u8]) -> Result<(), Refusal>
    ensures { result ≡ looks_at (tests_behind_key first lengths.now run.now) }
{
    let n = run.len() / 512;
    refuse_if(!layout::is_pack(run), Refusal::PackLength)?;
    refuse_if(lengths.len() != n, Refusal::ListLength)?;
    refuse_if(some_over(lengths), Refusal::PayloadTooLong)?;
    refuse_if(first as usize + n > 65536, Refusal::PlaceTooHigh)
}

// Seals the payload of u bytes that a block begins with.
fn seal_block<S: Scheme>(expanded: ExpandedKey, u: usize, position: Position, block: &mut [u8])
    requires { (length block.old ≡ 512) × (u ≤ 496) }
    ensures { block.new ≡ sealed_by (S.under expanded) [] (take u block.old) position.pack position.place }
{
    position.complete(u, block);
    pack::cipher::encipher::<S>(expanded, position, block);
}

// Seals the blocks in turn, each lent by its place, as in `opening`.
fn seal_blocks<S: Scheme>(expanded: ExpandedKey, start: Position, lengths: &[u16], run: &mut [u8])
    requires { Sealable start.place lengths.now run.old }
    ensures { run.new ≡ sealed_run (S.under expanded) [] start.pack start.place lengths.now run.old }
{
    for i in 0..lengths.len() {
        let at = 512 * i;
        seal_block::<S>(
            expanded,
            lengths[i] as usize,
            places::place_of(start, i),
            &mut run[at..at + 512],
        );
    }
}

// Seals each payload of the lent run where it stands, by the scheme, for a pack and the places from that of `start` on, or refuses and leaves the run as it is.
pub fn seal_run<S: Scheme>(
    key: &[u8],
    start: Position,
    lengths: &[u16],
    run: &mut [u8],
) -> Result<(), Refusal>
    ensures value { result ≡ answer_of S.scheme key.now start.place lengths.now run.old }
    ensures run_after { run.new ≡ left_by (number_of result) (sealed_run S.scheme key.now start.pack start.place lengths.now run.old) run.old }
    ensures one_run { number_of result ≡ 0 → OneRun S.scheme key.now (block_count run.old) (payload_at lengths.now run.old) start.pack start.place run.new }
{
    let expanded = schemes::expand::<S>(key)?;
    judge(start.place, lengths, run)?;
    seal_blocks::<S>(expanded, start, lengths, run);
    Ok(())
}
