// Standard input and standard output, for programs: an input is read to its end, a text is written to its last byte, and what fails is told by
// a line on standard error. The programs end with status 0 either way, so that line is how a caller knows.
//
// The streams are a caller's: a reader, a writer, and a writer for the line that tells a failure. Of a reader and a writer whose bytes are known,
// the contracts say which bytes were moved.
#![tactic(auto)]

#[cfg(test)]
mod tests;

ghost use Rattle.std.specs.Prelude.{◌≤◌, ◌<◌, ◌≡◌, length, take, IfOk, IfErr, OnOk};
ghost use Rattle.std.specs.Io.KnownBytes.{Appends, Consumes, IsAtEnd};
ghost use Rattle.streams.specs.SystemAnswers.{passes, step_of, moved, IsPrefixLen, Within, StepConsumes, StepAppends};

use std::io::{ErrorKind, Read, Write};
use std::{hint, io};

// What a read or a write did: four cases, none of them an error alone, so it is no `Result`.
#[derive(Clone, Copy)]
enum Step {
    Moved(usize),
    Nothing,
    Again,
    Failed(io::Error),
}

// Whether an error passes: the call was interrupted, or it would have had to wait.
fn passing(error: ErrorKind) -> bool
    ensures { result ≡ passes error }
{
    matches!(error, ErrorKind::Interrupted | ErrorKind::WouldBlock)
}

// What the answer of a call on a buffer means.
fn step_of(got: io::Result<usize>, buf: &[u8]) -> Step
    ensures value { result ≡ step_of got (length buf.now) }
    ensures within { Within (length buf.now) result }
{
    match got {
        Ok(0) => Step::Nothing,
        Ok(count) => Step::Moved(count.min(buf.len())),
        Err(error) if passing(error.kind()) => Step::Again,
        Err(error) => Step::Failed(error),
    }
}

// What stopped at a failure, which was told: how many bytes were moved before it.
#[derive(Clone, Copy, Debug, PartialEq, Eq)]
pub struct Stopped {
    pub size: usize,
}

// The system's words for an error, without the number that `Display` writes behind them.
fn words(text: &str) -> &str {
    match text.rsplit_once(" (os error ") {
        Some((words, _)) => words,
        None => text,
    }
}

// Writes a line: what failed, and why.
fn tell<E: Write>(errors: &mut E, what: &[u8], why: &[u8]) {
    let _ = errors.write_all(what);
    let _ = errors.write_all(b": ");
    let _ = errors.write_all(why);
    let _ = errors.write_all(b"\n");
}

// Tells a call that failed, with the reason that the system gives.
fn tell_error<E: Write>(errors: &mut E, what: &[u8], error: &io::Error) {
    let mut room = [0u8; 320];
    let mut rest = &mut room[..];
    let _ = write!(rest, "{error}");
    let size = 320usize.saturating_sub(rest.len());
    let text = str::from_utf8(&room[..size]).unwrap_or("");
    tell(errors, what, words(text).as_bytes());
}

fn failed<E: Write>(errors: &mut E, what: &[u8], error: &io::Error, size: usize) -> Stopped
    ensures { result.size ≡ size }
{
    tell_error(errors, what, error);
    Stopped { size }
}

// Tells what failed where no call says why.
fn gave_up<E: Write>(errors: &mut E, what: &[u8], why: &[u8], size: usize) -> Stopped
    ensures { result.size ≡ size }
{
    tell(errors, what, why);
    Stopped { size }
}

// A proved loop has to end, so the loops here have a number of turns that no run uses up. This is what would be told after them.
fn no_turns_left<E: Write>(errors: &mut E, what: &[u8], size: usize) -> Stopped
    ensures { result.size ≡ size }
{
    gave_up(errors, what, b"gave up waiting", size)
}

fn read_some<R: Read>(input: &mut R, buf: &mut [u8]) -> Step
    ensures within { Within (length buf.old) result }
    ensures bytes { StepConsumes (R.remaining input.old) (R.remaining input.new) result buf.new }
{
    let got = input.read(buf);
    step_of(got, buf)
}

// Reads until the input ends, the room is full, or a read fails, which is told as `what` with the reason. Before a read is tried again the program
// spins once.
pub fn read_input<R: Read, E: Write>(
    input: &mut R,
    errors: &mut E,
    room: &mut [u8],
    what: &[u8],
) -> Result<usize, Stopped>
    ensures prefix { IsPrefixLen (moved result) room.new }
    ensures bytes { Consumes (R.remaining input.old) (R.remaining input.new)
        (take (moved result) room.new) }
    ensures end { IfOk result (λ size. size < length room.old → IsAtEnd (R.remaining input.new)) }
{
    let mut size = 0;
    for _ in 0..u64::MAX {
        if size >= room.len() {
            return Ok(size);
        }
        match read_some(input, &mut room[size..]) {
            Step::Moved(count) => size += count,
            Step::Nothing => return Ok(size),
            Step::Again => hint::spin_loop(),
            Step::Failed(error) => return Err(failed(errors, what, &error, size)),
        }
    }
    Err(no_turns_left(errors, what, size))
}

fn write_some<W: Write>(output: &mut W, buf: &[u8]) -> Step
    ensures within { Within (length buf.now) result }
    ensures bytes { StepAppends (W.contents output.old) (W.contents output.new) result buf.now }
{
    let got = output.write(buf);
    step_of(got, buf)
}

// Writes all of a text, or stops at a write that fails, which is told as `what` with the reason.
pub fn write_text<W: Write, E: Write>(
    output: &mut W,
    errors: &mut E,
    text: &[u8],
    what: &[u8],
) -> Result<(), Stopped>
    ensures whole { OnOk result (Appends (W.contents output.old) (W.contents output.new) text.now) }
    ensures within { IfErr result (λ stopped. stopped.size ≤ length text.now) }
    ensures bytes { IfErr result (λ stopped. Appends (W.contents output.old) (W.contents output.new)
        (take stopped.size text.now)) }
{
    let mut size = 0;
    for _ in 0..u64::MAX {
        if size >= text.len() {
            return Ok(());
        }
        match write_some(output, &text[size..]) {
            Step::Moved(count) => size += count,
            Step::Nothing => return Err(gave_up(errors, what, b"no byte is taken", size)),
            Step::Again => hint::spin_loop(),
            Step::Failed(error) => return Err(failed(errors, what, &error, size)),
        }
    }
    Err(no_turns_left(errors, what, size))
}
