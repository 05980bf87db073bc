// Prints what the calls answer, a line each: of a reading or a writing its numbers; of judging and bound number, place, record, outcome, and the
// rank list afterwards or the bound. The programs that are held to stored output share it.
#![tactic(auto)]

ghost use Rattle.std.specs.Prelude.{◌≡◌};

use record::{Reading, Writing};
use std::fmt::Write as _;
use std::io::Write;
use std::{fmt, io};
use verdict::{Bounded, Grade, Outcome, Verdict};
use verdict_batch::Batched;

// Where the lines go, where a failure is told, and whether one was: a flag alone, as nothing goes with it.
#[derive(Drop)]
pub struct Printer<W, E> {
    output: W,
    errors: E,
    told: bool,
}

// A failure is told, and no error: so what writes to a printer has no error to pass on.
impl<W: Write, E: Write> fmt::Write for Printer<W, E> {
    fn write_str(&mut self, text: &str) -> fmt::Result {
        self.word(text.as_bytes());
        Ok(())
    }
}

impl<W: Write, E: Write> Printer<W, E> {
    pub fn new(output: W, errors: E) -> Printer<W, E> {
        Printer {
            output,
            errors,
            told: false,
        }
    }

    // All that is printed goes through here. What fails is told by one line: the words that follow fail as well, and are not told.
    pub fn word(&mut self, text: &[u8])
        ensures { result ≡ tt }
    {
        let what = b"cannot write standard output";
        let sent = if self.told {
            streams::write_text(&mut self.output, &mut io::sink(), text, what)
        } else {
            streams::write_text(&mut self.output, &mut self.errors, text, what)
        };
        if sent.is_err() {
            self.told = true;
        }
    }

    // Number, place, kind, n, m and the count of values.
    pub fn read(&mut self, name: &[u8], r: Reading)
        ensures { result ≡ tt }
    {
        self.word(name);
        let _ = writeln!(
            self,
            " {} {} {} {} {} {}",
            r.number, r.place, r.kind, r.n, r.m, r.count
        );
    }

    // Number, place and the count of bytes.
    pub fn written(&mut self, name: &[u8], w: Writing)
        ensures { result ≡ tt }
    {
        self.word(name);
        let _ = writeln!(self, " {} {} {}", w.number, w.place, w.written);
    }

    fn shown(&mut self, outcome: Outcome) {
        let _ = match outcome {
            Outcome::Nothing => write!(self, " nothing"),
            Outcome::Ranking { start, fall } => write!(self, " ranking {start} {fall}"),
            Outcome::Exclusion {
                grade: Grade::Whole,
            } => write!(self, " whole"),
            Outcome::Exclusion {
                grade: Grade::Fractions,
            } => write!(self, " fractions"),
            Outcome::Lasso { start, fall } => write!(self, " lasso {start} {fall}"),
            Outcome::Lexicographic => write!(self, " lexicographic"),
            Outcome::Settling { start, fall } => write!(self, " settling {start} {fall}"),
        };
    }

    fn told(&mut self, name: &[u8], v: Verdict) {
        self.word(name);
        let _ = write!(self, " {} {} {}", v.number, v.place, v.about);
        self.shown(v.outcome);
    }

    fn listed(&mut self, values: &[i64]) {
        for value in values {
            let _ = write!(self, " {value}");
        }
    }

    // A verdict of judging, and the whole rank list that was lent to it.
    pub fn judged(&mut self, name: &[u8], v: Verdict, rank: &[i64])
        ensures { result ≡ tt }
    {
        self.told(name, v);
        self.word(b" rank");
        self.listed(rank);
        self.word(b"\n");
    }

    pub fn bounded(&mut self, name: &[u8], b: Bounded)
        ensures { result ≡ tt }
    {
        self.told(name, b.verdict);
        let _ = writeln!(self, " bound {}", b.bound);
    }

    // A verdict's seven numbers; the fifth and the sixth are signed.
    fn verdict_numbers(&mut self, row: &[usize; 7]) {
        let [number, place, record, outcome, start, fall, grade] = *row;
        let start = start.cast_signed();
        let fall = fall.cast_signed();
        let _ = write!(
            self,
            ", {number} {place} {record} {outcome} {start} {fall} {grade}"
        );
    }

    // Number, place, record and count of a batch; the whole row of verdicts that was lent to it, and the whole list of rank numbers.
    pub fn batched(&mut self, name: &[u8], b: Batched, rows: &[[usize; 7]], ranks: &[i64])
        ensures { result ≡ tt }
    {
        self.word(name);
        let _ = write!(self, " {} {} {} {}", b.number, b.place, b.about, b.count);
        for row in rows {
            self.verdict_numbers(row);
        }
        self.word(b" ranks");
        self.listed(ranks);
        self.word(b"\n");
    }
}
