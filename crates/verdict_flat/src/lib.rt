// A verdict as callers in other languages get it: fields that are numbers, one after another. An outcome cannot cross as it is. Nothing is lost: the
// numbers of a verdict give it back.
#![tactic(auto)]

ghost use Rattle.std.specs.Prelude.{◌≡◌};
ghost use Rattle.verdict_flat.specs.FlatVerdicts.{told, flat_verdict};
ghost use Rattle.verdict_flat.specs.VerdictsBack.{grade_back, outcome_back, verdict_back};

use verdict::{Grade, Outcome, Verdict};

// The answer of judging: the outcome is 0 nothing, 2 ranking, 3 exclusion, 4 lasso, 6 lexicographic, 8 settling; the grade 0 none,
// 1 whole, 2 fractions.
#[repr(C)]
#[derive(Clone, Copy)]
pub struct FlatVerdict {
    pub number: usize,
    pub place: usize,
    pub record: usize,
    pub outcome: usize,
    pub start: i64,
    pub fall: i64,
    pub grade: usize,
}

// A verdict whose outcome is given in numbers: what the arms of the conversion below share, and no conversion itself.
fn flat_told(v: Verdict, outcome: usize, start: i64, fall: i64, grade: usize) -> FlatVerdict
    ensures { result ≡ told v (record { kind = outcome; start = start; fall = fall; grade = grade }) }
{
    FlatVerdict {
        number: v.number,
        place: v.place,
        record: v.about,
        outcome,
        start,
        fall,
        grade,
    }
}

impl From<Verdict> for FlatVerdict {
    ghost from_gives = { λ v flat. flat ≡ flat_verdict v };

    fn from(v: Verdict) -> FlatVerdict {
        match v.outcome {
            Outcome::Nothing => flat_told(v, 0, 0, 0, 0),
            Outcome::Ranking { start, fall } => flat_told(v, 2, start, fall, 0),
            Outcome::Exclusion {
                grade: Grade::Whole,
            } => flat_told(v, 3, 0, 0, 1),
            Outcome::Exclusion {
                grade: Grade::Fractions,
            } => flat_told(v, 3, 0, 0, 2),
            Outcome::Lasso { start, fall } => flat_told(v, 4, start, fall, 0),
            Outcome::Lexicographic => flat_told(v, 6, 0, 0, 0),
            Outcome::Settling { start, fall } => flat_told(v, 8, start, fall, 0),
        }
    }
}

// ---- back again

// The grade that a number tells. It is no `From<usize>`, since neither type is of this crate.
fn grade_of(grade: usize) -> Grade
    ensures { result ≡ grade_back grade }
{
    match grade {
        1 => Grade::Whole,
        _ => Grade::Fractions,
    }
}

// The outcome that some numbers tell. It is no `From`, since these four are fields of a verdict and no type of their own.
fn outcome_of(outcome: usize, start: i64, fall: i64, grade: usize) -> Outcome
    ensures { result ≡ outcome_back (record { kind = outcome; start = start; fall = fall; grade = grade }) }
{
    match outcome {
        2 => Outcome::Ranking { start, fall },
        3 => Outcome::Exclusion {
            grade: grade_of(grade),
        },
        4 => Outcome::Lasso { start, fall },
        6 => Outcome::Lexicographic,
        8 => Outcome::Settling { start, fall },
        _ => Outcome::Nothing,
    }
}

// The verdict that some numbers are of.
impl From<FlatVerdict> for Verdict {
    ghost from_gives = { λ flat v. v ≡ verdict_back flat };

    fn from(v: FlatVerdict) -> Verdict {
        Verdict {
            number: v.number,
            place: v.place,
            about: v.record,
            outcome: outcome_of(v.outcome, v.start, v.fall, v.grade),
        }
    }
}
