// Why a call was not done, and the number that an answer has in C.
ghost use Rattle.std.specs.Prelude.{◌≡◌};
ghost use Rattle.strings.specs.Call.{refusal_number, number_of};
ghost use Rattle.strings.specs.Inner.{refuse_if};

// The reasons of 01 and 02, each with its number there. Number 9 is the program's.
#[derive(Clone, Copy, Debug, PartialEq, Eq)]
pub enum Refusal {
    KeyLength = 1,
    TweakLength = 2,
    TooShort = 3,
    TooLong = 4,
    PayloadTooLong = 5,
    PlaceTooHigh = 6,
    BlockLength = 7,
    CheckFailed = 8,
    PackLength = 10,
    ListLength = 11,
    Blank = 12,
    ForwardTooShort = 13,
}

impl Refusal {
    // Its number in 01 or 02. By a name, and not `From`: 01 calls it the number.
    pub fn number(self) -> u32
        ensures { result ≡ refusal_number self }
    {
        self as u32
    }
}

// The number of a refusal, and 0 for a call that was done.
pub fn number<T: Copy>(answer: Result<T, Refusal>) -> u32
    ensures { result ≡ number_of answer }
{
    match answer {
        Ok(_) => 0,
        Err(why) => why.number(),
    }
}

// A test of a call: where it holds, the call is refused. By `?` the next one is looked at only where none held so far, so tests one by one are `in_turn`.
pub fn refuse_if(holds: bool, why: Refusal) -> Result<(), Refusal>
    ensures { result ≡ refuse_if (Ok tt) holds why }
{
    if holds { Err(why) } else { Ok(()) }
}
