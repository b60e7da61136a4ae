// The places of the blocks of a run, from the first on.
ghost use Rattle.std.specs.Prelude.{◌≡◌, ◌+◌, ◌^◌, ◌<◌};

use layout::Position;

// The position of block i of a run that begins at `start`.
pub(crate) fn place_of(start: Position, i: usize) -> Position
    requires { start.place + i < 2 ^ 32 }
    ensures pack_value { result.pack ≡ start.pack }
    ensures place_value { result.place ≡ start.place + i }
{
    Position {
        pack: start.pack,
        place: start.place + i as u32,
    }
}
