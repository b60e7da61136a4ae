// What the calls of every scheme on a message have in common.
ghost use Rattle.std.specs.Prelude.{◌≡◌};
ghost use Rattle.strings.specs.Call.{looks_at};
ghost use Rattle.strings.specs.Message.{tests_behind_key};

use crate::refusal::{Refusal, refuse_if};

// What a call looks at behind its key, in 01's order. A message under `least` bytes is refused as `short`.
pub fn judge(least: usize, short: Refusal, tweak: &[u8], message: &[u8]) -> Result<(), Refusal>
    ensures { result ≡ looks_at (tests_behind_key least short tweak.now message.now) }
{
    refuse_if(tweak.len() != 16, Refusal::TweakLength)?;
    refuse_if(message.len() < least, short)?;
    refuse_if(message.len() > 4096, Refusal::TooLong)
}
