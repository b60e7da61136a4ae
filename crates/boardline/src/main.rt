// Enciphers and deciphers boards, a line each, from standard input to standard output (01, "For
// the app, and at the desk"). What a line is and what is answered is the crate `line`; here it is
// read, handed over and written.
#![tactic(auto)]

use line::{LONGEST, ROOM};
use std::fmt;
use std::io::Read;
use text::part::LineBuffer;

// The most bytes that are read at a time.
const CHUNK: usize = 65536;

// What the program could not do.
#[derive(Clone, Copy)]
enum Failure {
    Read,
    Write,
}

impl fmt::Display for Failure {
    fn fmt<W: fmt::Write>(&self, f: &mut fmt::Formatter<W>) -> fmt::Result {
        f.write_str(match self {
            Failure::Read => "cannot read standard input",
            Failure::Write => "cannot write to standard output",
        })
    }
}

// Says on standard error what failed. Where that cannot be written either, nobody is told.
fn main(rt: HostRuntime) {
    if let Err(failure) = answer_all(&rt, &mut rt.stdin()) {
        let _ = eprintln!(rt; "boardline: {failure}");
    }
}

// A proved loop has to end, and nothing says that the input does. So the loop has a number of turns
// that no run uses up.
fn answer_all(rt: &impl Print, input: &mut impl Read) -> Result<(), Failure> {
    let mut line = LineBuffer::new();
    let mut out = [0u8; ROOM];
    let mut chunk = [0u8; CHUNK];
    for _ in 0..u64::MAX {
        let n = input.read(&mut chunk).or(Err(Failure::Read))?;
        if n == 0 {
            break;
        }
        answer_lines(rt, &mut line, &chunk[..n], &mut out)?;
    }
    let written = line::last(&line, &mut out);
    write(rt, &out[..written])
}

// Answers each line that ends in the chunk, and goes on with the line under way.
fn answer_lines(
    rt: &impl Print,
    line: &mut LineBuffer<LONGEST>,
    chunk: &[u8],
    out: &mut [u8; ROOM],
) -> Result<(), Failure> {
    let mut rest = chunk;
    while !rest.is_empty() {
        let step = line::next(line, rest, out);
        write(rt, &out[..step.written])?;
        rest = &rest[step.used..];
    }
    Ok(())
}

fn write(rt: &impl Print, answer: &[u8]) -> Result<(), Failure> {
    rt.write_all(answer).or(Err(Failure::Write))
}
