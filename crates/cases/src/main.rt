// Runs the calls on the cases that standard input lists, and prints a line for each: what it is, and the numbers of the answer. The lines are held to
// stored output. A case is a line of text, so that a new one costs no proof:
//
//     NAME: loop PLACES BYTES                    reads a loop record; PLACES are those of the list
//     NAME: certificate N M PLACES BYTES         reads a certificate record
//     NAME: write KIND N M ROOM VALUE ..         writes a record
//     NAME: to-short N M ROOM BYTES              shortens a ranking
//     NAME: from-short N M ROOM BYTES            lengthens one
//     NAME: judge PLACES LOOP CERTIFICATE        judges; the rank list starts as nines
//     NAME: all PLACES NUMBERS LOOP RECORDS      judges records laid end to end; PLACES are the verdicts', NUMBERS the ranks', which all start as nines
//     NAME: bound LOOP CERTIFICATE ENTRY ..      tells the bound at a state
//
// Bytes are pairs of hexadecimal digits, `-` for none; numbers are decimal. A name ends in its first colon. A line that starts with `#` is a comment.
#![tactic(auto)]

use cases_lines::Line;
use cases_telling::Printer;
use record::Writing;
use std::io::Write;

// Room for the text of the cases.
const TEXT: usize = 131072;

// Room for a record, and a list for its values.
const RECORD: usize = 8192;

const VALUES: usize = 4096;

// ---- the calls, each on the line of a case behind its word

fn read_loop<W: Write, E: Write>(printer: &mut Printer<W, E>, name: &[u8], mut line: Line) {
    let mut room = [0; RECORD];
    let mut list = [0; VALUES];
    let values = line.front(&mut list);
    let record = line.bytes(&mut room);
    printer.read(name, record_read::read_loop(record, values));
}

fn read_certificate<W: Write, E: Write>(printer: &mut Printer<W, E>, name: &[u8], mut line: Line) {
    let mut room = [0; RECORD];
    let mut list = [0; VALUES];
    let n = line.count();
    let m = line.count();
    let values = line.front(&mut list);
    let record = line.bytes(&mut room);
    printer.read(name, record_read::read_certificate(record, n, m, values));
}

fn write_record<W: Write, E: Write>(printer: &mut Printer<W, E>, name: &[u8], mut line: Line) {
    let mut room = [0; RECORD];
    let mut list = [0; VALUES];
    let kind = line.count();
    let n = line.count();
    let m = line.count();
    let record = line.front(&mut room);
    let values = line.numbers(&mut list);
    printer.written(name, record_write::write_record(kind, n, m, values, record));
}

// A ranking put otherwise: shortened or lengthened.
fn convert<W: Write, E: Write, F: Fn(&[u8], usize, usize, &mut [u8]) -> Writing>(
    printer: &mut Printer<W, E>,
    name: &[u8],
    mut line: Line,
    converted: F,
)
    requires { F.IsAlwaysCallable converted }
{
    let mut from = [0; RECORD];
    let mut to = [0; RECORD];
    let n = line.count();
    let m = line.count();
    let room = line.front(&mut to);
    let ranking = line.bytes(&mut from);
    printer.written(name, converted(ranking, n, m, room));
}

fn judge<W: Write, E: Write>(printer: &mut Printer<W, E>, name: &[u8], mut line: Line) {
    let mut first = [0; RECORD];
    let mut second = [0; RECORD];
    let mut ranks = [9; 32];
    let rank = line.front(&mut ranks);
    let looped = line.bytes(&mut first);
    let certificate = line.bytes(&mut second);
    let verdict = judge_by_kind::judge(looped, certificate, rank);
    printer.judged(name, verdict, rank);
}

fn judge_all<W: Write, E: Write>(printer: &mut Printer<W, E>, name: &[u8], mut line: Line) {
    let mut first = [0; RECORD];
    let mut others = [0; RECORD];
    let mut verdicts = [[9; 7]; 40];
    let mut numbers = [9; 128];
    let rows = line.front(&mut verdicts);
    let ranks = line.front(&mut numbers);
    let looped = line.bytes(&mut first);
    let records = line.bytes(&mut others);
    let batched = judge_rows::judge_rows(looped, records, rows, ranks);
    printer.batched(name, batched, rows, ranks);
}

fn bound<W: Write, E: Write>(printer: &mut Printer<W, E>, name: &[u8], mut line: Line) {
    let mut first = [0; RECORD];
    let mut second = [0; RECORD];
    let mut entries = [0; 32];
    let looped = line.bytes(&mut first);
    let certificate = line.bytes(&mut second);
    let state = line.numbers(&mut entries);
    printer.bounded(name, bound_by_kind::bound(looped, certificate, state));
}

// ---- the text

// A case: the call is known by its first letter.
fn run_case<W: Write, E: Write>(printer: &mut Printer<W, E>, name: &[u8], mut line: Line) {
    match line.word() {
        [b'l', ..] => read_loop(printer, name, line),
        [b'c', ..] => read_certificate(printer, name, line),
        [b'w', ..] => write_record(printer, name, line),
        [b't', ..] => convert(printer, name, line, record_short_write::shorten),
        [b'f', ..] => convert(printer, name, line, record_short_write::lengthen),
        [b'j', ..] => judge(printer, name, line),
        [b'a', ..] => judge_all(printer, name, line),
        [b'b', ..] => bound(printer, name, line),
        _ => printer.word(b"no such call\n"),
    }
}

// A line: a comment, or a name up to its first colon, a blank and a case.
fn run_line<W: Write, E: Write>(printer: &mut Printer<W, E>, line: &[u8]) {
    if line.starts_with(b"#") {
        return;
    }
    let Some(colon) = line.iter().position(|byte| *byte == b':') else {
        return;
    };
    let (name, rest) = line.split_at(colon + 1);
    if let [_, case @ ..] = rest
        && !case.is_empty()
    {
        run_case(printer, name, Line::new(case));
    }
}

fn run_text<W: Write, E: Write>(printer: &mut Printer<W, E>, text: &[u8]) {
    for line in text.split(|byte| *byte == b'\n') {
        run_line(printer, line);
    }
}

fn main(rt: HostRuntime) {
    let mut errors = rt.stderr();
    let mut room = [0; TEXT];
    let what = b"cases: cannot read standard input";
    let Ok(size) = streams::read_input(&mut rt.stdin(), &mut errors, &mut room, what) else {
        return;
    };
    let mut printer = Printer::new(rt.stdout(), errors);
    run_text(&mut printer, &room[..size]);
}
