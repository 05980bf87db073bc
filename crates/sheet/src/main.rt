// The program "sheet" of 01: standard input is one loop record and then certificates, standard output is the text of the sheet.
// It reads to the end, or past 65,536 bytes, and hands the text on part by part as the library puts it into a small room. What fails is told
// by one line on standard error; a read that fails prints no text.
#![tactic(auto)]

ghost use Rattle.std.specs.Prelude.{◌+◌, ◌≤◌, ◌≡◌, length, take, drop, IfSome, IfOk, IfErr, OnOk};
ghost use Rattle.std.specs.Io.KnownBytes.{Appends};
ghost use Rattle.sheet_text.specs.Sheets.{sheet_text};
ghost use Rattle.sheet_parts.specs.Parts.{Next};
ghost use Rattle.streams.specs.SystemAnswers.{moved};

use std::env::FillError;
use std::io::{Read, Write};
use std::rt::Env;
use streams::Stopped;

// Room for the longest input that is looked at: one byte more is enough to see that it is too long.
fn input_room() -> [u8; 65537]
    ensures { 65537 ≡ length result }
{
    [0; 65537]
}

// Room for a part of the text. A larger one saves little: 16 KiB are handed on in a few microseconds.
fn part_room() -> [u8; 16384]
    ensures { 16384 ≡ length result }
{
    [0; 16384]
}

// Hands on a part, which comes next in the text after the bytes that were handed on before, and counts the bytes that were taken. The count is
// lent, so that no part is handed on twice where an answer is forgotten. Nothing else writes to standard output.
fn hand_on<W: Write, E: Write>(
    output: &mut W,
    errors: &mut E,
    input: &[u8],
    done: &mut usize,
    part: &[u8],
) -> Result<(), Stopped>
    requires { (done.old ≤ length (sheet_text input.now)) × Next (sheet_text input.now) done.old part.now }
    ensures counted { OnOk result (done.new ≡ done.old + length part.now) }
    ensures stopped { IfErr result (λ stopped. stopped.size ≡ done.new) }
    ensures grows { done.old ≤ done.new }
    ensures bytes { Appends (W.contents output.old) (W.contents output.new)
        (drop done.old (take done.new (sheet_text input.now))) }
{
    match streams::write_text(output, errors, part, b"sheet: cannot write standard output") {
        Ok(()) => {
            *done += part.len();
            Ok(())
        }
        Err(stopped) => {
            *done += stopped.size;
            Err(Stopped { size: *done })
        }
    }
}

// Hands on the text of a sheet, part by part, and answers how many bytes it has. If no failure was told, all of it was handed on.
fn print_sheet<W: Write, E: Write>(
    output: &mut W,
    errors: &mut E,
    input: &[u8],
) -> Result<usize, Stopped>
    ensures whole { IfOk result (λ size. size ≡ length (sheet_text input.now)) }
    ensures bytes { Appends (W.contents output.old) (W.contents output.new)
        (take (moved result) (sheet_text input.now)) }
{
    let mut room = part_room();
    let mut part = sheet_parts::first_part(input, &mut room);
    let mut done = 0;
    loop {
        hand_on(output, errors, input, &mut done, &room[..part.written])?;
        if part.place >= input.len() {
            return Ok(done);
        }
        part = sheet_parts::next_part(input, part, &mut room);
    }
}

// Reads an input and hands on the text of its sheet. If no failure was told, what was handed on is the whole text, of the whole input.
fn run<R: Read, W: Write, E: Write>(
    input: &mut R,
    output: &mut W,
    errors: &mut E,
) -> Result<(), Stopped>
    ensures { OnOk result (IfSome (R.remaining input.old) (λ bytes.
        Appends (W.contents output.old) (W.contents output.new) (sheet_text bytes))) }
{
    let mut room = input_room();
    let size = streams::read_input(
        input,
        errors,
        &mut room,
        b"sheet: cannot read standard input",
    )?;
    print_sheet(output, errors, &room[..size])?;
    Ok(())
}

// Whether a word stands behind the program's name.
fn has_argument(rt: &HostRuntime) -> bool {
    let mut word = [0u8; 1];
    !matches!(rt.arg(1, &mut word), Err(FillError::NotPresent))
}

fn main(rt: HostRuntime) {
    let mut errors = rt.stderr();
    if has_argument(&rt) {
        let _ = errors.write_all(
            b"sheet: takes no argument, it reads standard input only: sheet < FILE\n",
        );
        return;
    }
    let _ = run(&mut rt.stdin(), &mut rt.stdout(), &mut errors);
}
