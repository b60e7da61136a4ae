// Opening a run: all of its blocks, or none.
ghost use Rattle.std.specs.Prelude.{◌+◌, ◌*◌, ◌≡◌, [], ◌∷◌, length};
ghost use Rattle.strings.specs.Call.{refusal_number, looks_at, left_by};
ghost use Rattle.layout.specs.Layout.{used, tweak as tweak_of};
ghost use Rattle.layout.specs.Finding.{block_count};
ghost use Rattle.runs.specs.Run.{blockwise};
ghost use Rattle.runs.specs.Opening.{number_of, deciphered_run, used_lengths, tests_behind_key, answer_of, Meaning};
ghost use Rattle.runs.specs.Inner.{InRange, at_place, OpensInTurn, OpensBlocks};
ghost use Rattle.runs.specs.NotOpened.{why_of};
ghost use Rattle.runs.specs.declared.opening.NotOpened.TheVariants.{Refused};

use crate::places;
use layout::Position;
use primitives::aes::ExpandedKey;
use schemes::Scheme;
use strings::refusal::{Refusal, refuse_if};

// Why a run was not opened: for a reason of its own, or since the block of a place was not opened, the first such place.
#[derive(Clone, Copy, Debug, PartialEq, Eq)]
pub enum NotOpened {
    Refused(Refusal),
    Failed(Refusal, u32),
}

impl NotOpened {
    // 02's number of the reason. Each kind of reason has a method of this name, and `number` below is that of `strings` over another kind: a trait over the kinds would
    // have a ghost number and a law for each, and be longer than they are.
    pub fn number(self) -> u32
        ensures { result ≡ refusal_number (why_of self) }
    {
        match self {
            NotOpened::Refused(why) => why.number(),
            NotOpened::Failed(why, _) => why.number(),
        }
    }
}

impl From<Refusal> for NotOpened {
    ghost from_gives = { λ why not_opened. not_opened ≡ Refused why };

    fn from(why: Refusal) -> Self {
        Self::Refused(why)
    }
}

// The number of what opening a run answered, 0 where the work was done.
pub fn number(opened: Result<(), NotOpened>) -> u32
    ensures { result ≡ number_of opened }
{
    match opened {
        Ok(()) => 0,
        Err(not_opened) => not_opened.number(),
    }
}

// What opening looks at behind the key and before it opens a block, in 02's order.
fn judge(first: u32, lengths: &[u16], run: &[u8]) -> Result<(), Refusal>
    ensures { result ≡ looks_at (tests_behind_key first lengths.now run.now) }
{
    let n = run.len() / 512;
    refuse_if(!layout::is_pack(run), Refusal::PackLength)?;
    refuse_if(lengths.len() != n, Refusal::ListLength)?;
    refuse_if(first as usize + n > 65536, Refusal::PlaceTooHigh)
}

// Enciphers opened blocks again, which gives the lent bytes back. The loops of this crate lend each block by its place: what a proof knows of a slice ends with its `chunks_exact_mut`. A
// run with its places cannot be one value either, since a fact beside a `&mut` gets no proof when the slice is written to.
fn encipher_blocks<S: Scheme>(expanded: ExpandedKey, start: Position, run: &mut [u8])
    requires { InRange start.place run.old }
    ensures { run.new ≡ blockwise (λ i B. (S.under expanded).encipher [] (tweak_of start.pack (start.place + i)) B) (block_count run.old) run.old }
{
    for i in 0..run.len() / 512 {
        let at = 512 * i;
        let position = places::place_of(start, i);
        pack::cipher::encipher::<S>(expanded, position, &mut run[at..at + 512]);
    }
}

// Opens the blocks in turn, up to the first that will not open: which it is, and why.
fn open_in_turn<S: Scheme>(
    expanded: ExpandedKey,
    start: Position,
    run: &mut [u8],
) -> Result<(), (usize, Refusal)>
    requires { InRange start.place run.old }
    ensures { OpensInTurn (S.under expanded) [] start.pack start.place run.old (at_place start.place result) run.new }
{
    for i in 0..run.len() / 512 {
        let at = 512 * i;
        let here = places::place_of(start, i);
        if let Err(why) = pack::open_with::<S>(expanded, here, &mut run[at..at + 512]) {
            return Err((i, why));
        }
    }
    Ok(())
}

// Opens all blocks. Where one will not open, those before it are closed again.
fn open_blocks<S: Scheme>(
    expanded: ExpandedKey,
    start: Position,
    run: &mut [u8],
) -> Result<(), NotOpened>
    requires { InRange start.place run.old }
    ensures { OpensBlocks (S.under expanded) [] start.pack start.place run.old result run.new }
{
    if let Err((i, why)) = open_in_turn::<S>(expanded, start, run) {
        encipher_blocks::<S>(expanded, start, &mut run[0..512 * i]);
        return Err(NotOpened::Failed(why, places::place_of(start, i).place));
    }
    Ok(())
}

// Writes the length of each payload of an opened run to the list. By the block's number, as in the loops above, so that one form of invariant serves them all.
fn put_lengths(run: &[u8], lengths: &mut [u16])
    requires { length run.now ≡ 512 * length lengths.old }
    ensures { lengths.new ≡ blockwise (λ i B. used B ∷ []) (length lengths.old) run.now }
{
    for i in 0..lengths.len() {
        let at = 512 * i;
        lengths[i] = strings::number::get(&run[at..at + 512], 508, 2) as u16;
    }
}

// Opens each block of the lent run by the scheme, for a pack and the places from that of `start` on, and writes the payloads' lengths to the list, or refuses and
// leaves both as they are.
pub fn open_run<S: Scheme>(
    key: &[u8],
    start: Position,
    lengths: &mut [u16],
    run: &mut [u8],
) -> Result<(), NotOpened>
    ensures value { result ≡ answer_of S.scheme key.now start.pack start.place lengths.old run.old }
    ensures run_after { run.new ≡ left_by (number_of result) (deciphered_run S.scheme key.now start.pack start.place run.old) run.old }
    ensures lengths_after { lengths.new ≡ left_by (number_of result) (used_lengths S.scheme key.now start.pack start.place run.old) lengths.old }
    ensures meaning { Meaning S.scheme result key.now start.pack start.place lengths.old run.old lengths.new run.new }
{
    let expanded = schemes::expand::<S>(key)?;
    judge(start.place, lengths, run)?;
    let opened = open_blocks::<S>(expanded, start, run);
    opened?;
    put_lengths(run, lengths);
    Ok(())
}
