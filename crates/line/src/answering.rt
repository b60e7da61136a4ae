// One line and its answer.
ghost use Rattle.std.specs.Prelude.{◌≤◌, ◌<◌, ◌≡◌, [], ◌∷◌, ◌++◌, length};
ghost use Rattle.text.specs.Hex.{hex};
ghost use Rattle.text.specs.Part.{split};
ghost use Rattle.line.specs.Line.{commanded, requested, request_of, refusal, answer as answer_of, Written};
ghost use Rattle.line.specs.Inner.{number_of, character, command_of, FieldRead, Answered};
ghost use Rattle.line.specs.declared.answering.NoResult.TheVariants.{Refused};

use crate::{LONGEST, ROOM};
use schemes::Hch;
use strings::refusal::Refusal;

// The most bytes that the digits of a line stand for.
const BYTES: usize = LONGEST / 2;

// Why a line has no result: it is not understood, or the call that it asks for was refused.
#[derive(Clone, Copy)]
pub(crate) enum NoResult {
    NotUnderstood,
    Refused(Refusal),
}

impl NoResult {
    // Its number in 01, as `runs::NotOpened` has one.
    fn number(self) -> u32
        ensures { result ≡ number_of self }
    {
        match self {
            NoResult::NotUnderstood => 9,
            NoResult::Refused(why) => why.number(),
        }
    }
}

impl From<Refusal> for NoResult {
    ghost from_gives = { λ why e. e ≡ Refused why };

    fn from(why: Refusal) -> NoResult {
        NoResult::Refused(why)
    }
}

// What a line asks for. It is a character of the line, so one `match` in `run` chooses the call: a closure in
// its place would be chosen by the same match.
#[derive(Clone, Copy)]
enum Command {
    Encipher,
    Decipher,
}

impl TryFrom<u8> for Command {
    type Error = NoResult;

    ghost try_from_gives = { λ c r. r ≡ command_of c };

    fn try_from(character: u8) -> Result<Command, NoResult> {
        match character {
            b'E' => Ok(Command::Encipher),
            b'D' => Ok(Command::Decipher),
            _ => Err(NoResult::NotUnderstood),
        }
    }
}

// Writes the answer to a line to the front of `out`, leaves the rest of `out`, and returns the
// number of bytes written: memory is fixed, and the theorem `in_chunks` speaks of what is left in `out`.
pub fn answer(line: &[u8], out: &mut [u8; ROOM]) -> usize
    ensures { Written (answer_of line.now) result out.old out.new }
{
    match result(line, out) {
        Ok(n) => n,
        Err(why) => refuse(why, out),
    }
}

// Writes the result of what a line asks for, as `answer` does. Where there is none, `out` is as it
// was.
fn result(line: &[u8], out: &mut [u8; ROOM]) -> Result<usize, NoResult>
    ensures { Answered (request_of line.now) result out.old out.new }
{
    if line.len() > LONGEST {
        return Err(NoResult::NotUnderstood);
    }
    let [command, b' ', fields @ ..] = line else {
        return Err(NoResult::NotUnderstood);
    };
    read(Command::try_from(*command)?, fields, out)
}

// Reads the key and the tweak, each in front of a space, and the message, which ends with the line:
// a space is no digit, so a fourth field is refused there.
// There is no heap, so each is bytes at the front of an array, with their number beside it.
fn read(command: Command, fields: &[u8], out: &mut [u8; ROOM]) -> Result<usize, NoResult>
    requires { length fields.now ≤ 8300 }
    ensures { Answered (requested ((character command ∷ []) ∷ split 32 fields.now)) result out.old out.new }
{
    let mut key = [0u8; BYTES];
    let k = read_field(fields, &mut key)?;
    let fields = &fields[2 * k + 1..];
    let mut tweak = [0u8; BYTES];
    let t = read_field(fields, &mut tweak)?;
    let digits = &fields[2 * t + 1..];
    let mut message = [0u8; BYTES];
    let m = text::hex::decode(digits, &mut message).ok_or(NoResult::NotUnderstood)?;
    run(command, &key[..k], &tweak[..t], &mut message[..m], out)
}

// Reads the field at the front of `fields` to the front of `room`, and answers how many bytes it has:
// what follows its space begins at 2 * n + 1.
fn read_field(fields: &[u8], room: &mut [u8; BYTES]) -> Result<usize, NoResult>
    requires { length fields.now ≤ 8300 }
    ensures { FieldRead fields.now result room.new }
{
    text::hex::decode_field(fields, b' ', room).ok_or(NoResult::NotUnderstood)
}

// Enciphers or deciphers the message, and writes what the call left, if it was not refused.
fn run(
    command: Command,
    key: &[u8],
    tweak: &[u8],
    message: &mut [u8],
    out: &mut [u8; ROOM],
) -> Result<usize, NoResult>
    ensures { Answered (commanded (character command ∷ []) key.now tweak.now message.old) result out.old out.new }
{
    match command {
        Command::Encipher => schemes::encipher::<Hch>(key, tweak, message)?,
        Command::Decipher => schemes::decipher::<Hch>(key, tweak, message)?,
    }
    Ok(reply(message, out))
}

// Writes the digits of what a call left and a line feed.
fn reply(left: &[u8], out: &mut [u8; ROOM]) -> usize
    requires { length left.now ≤ 4096 }
    ensures { Written (hex left.now ++ 10 ∷ []) result out.old out.new }
{
    let n = text::hex::encode(left, out);
    strings::places::write(out, n, b"\n");
    n + 1
}

// Writes `no `, the number in decimal and a line feed, each to its place in the lent bytes: there is no
// heap for a `format!`.
pub(crate) fn refuse(why: NoResult, out: &mut [u8; ROOM]) -> usize
    ensures { Written (refusal (number_of why)) result out.old out.new }
{
    let mut buffer = itoa::Buffer::new();
    let digits = buffer.format(why.number()).as_bytes();
    let k = digits.len();
    strings::places::write(out, 0, b"no ");
    strings::places::write(out, 3, digits);
    strings::places::write(out, 3 + k, b"\n");
    4 + k
}
