// Certificates of kinds 2 to 4 for a loop of kind 1 that has been checked: whether their bytes prove what they claim of it. A refusal changes
// nothing that was lent.
#![tactic(auto)]

ghost use Rattle.std.specs.Prelude.{◌≡◌, ℤ, List, length, ◌+◌, ◌*◌, ◌≤◌, ◌<◌};
ghost use Rattle.endian.specs.Numbers.{little_at};
ghost use Rattle.judge_exclusion.specs.ExclusionHeld.{exclusion_held};
ghost use Rattle.record.specs.Layouts.{ranking, exclusion};
ghost use Rattle.verdict.specs.Judging.{judges, rank_after, judge_of, certificates_judged};
ghost use Rattle.verdict.specs.Outcomes.{grade_of};
ghost use Rattle.verdict.specs.Stages.{shows, refusal_of};
ghost use Rattle.judge.specs.SoundPairs.{CertificateSound, LassoSound, Judged};

mod sound_loop;

use judge_lasso::LassoRecord;
use judge_ranking::Ranked;
use record_check::OfKind;
pub use sound_loop::{FIRST_ROW, SoundLoop};
use verdict::{Grade, Outcome, Verdict};

// What is accepted, with what it shows.
pub fn accepted(outcome: Outcome) -> Verdict
    ensures { result ≡ shows outcome }
{
    Verdict {
        number: 0,
        place: 0,
        about: 0,
        outcome,
    }
}

// A refusal: the record that it speaks of, its number and place. A verdict has these as fields, so it is no `refusal::refused`.
pub fn refused(about: usize, number: usize, place: usize) -> Verdict
    ensures { result ≡ refusal_of about number place }
{
    Verdict {
        number,
        place,
        about,
        outcome: Outcome::Nothing,
    }
}

// ---- of sound records

// Kind 2: the rank list, and then the conditions.
pub fn ranking_sound(looped: SoundLoop, certificate: &[u8], rank: &mut [i64]) -> Verdict
    requires { CertificateSound certificates_judged looped.bytes.now certificate.now ranking }
    ensures { Judged looped.entry.bytes.now certificate.now rank.old result rank.new }
{
    if rank.len() < looped.n {
        return refused(0, 7, looped.n);
    }
    match judge_ranking::ranking(looped.rows(), certificate, rank) {
        Ok(Ranked { start, fall }) => accepted(Outcome::Ranking { start, fall }),
        Err(fault) => refused(2, fault.number, fault.place),
    }
}

// Kind 4, of ms stem rows.
fn lasso_sound(looped: SoundLoop, certificate: &[u8], ms: usize, rank: &mut [i64]) -> Verdict
    requires { LassoSound certificates_judged looped.bytes.now certificate.now ms }
    ensures { Judged looped.entry.bytes.now certificate.now rank.old result rank.new }
{
    if rank.len() < looped.n {
        return refused(0, 7, looped.n);
    }
    let lasso = LassoRecord {
        bytes: certificate,
        n: looped.n,
        m: looped.m,
        ms,
    };
    match judge_lasso::lasso(looped.rows(), lasso, rank) {
        Ok(Ranked { start, fall }) => accepted(Outcome::Lasso { start, fall }),
        Err(fault) => refused(2, fault.number, fault.place),
    }
}

// Kind 3, which has no rank: the answer is the same for every list.
fn exclusion_sound(looped: SoundLoop, certificate: &[u8]) -> Verdict
    requires { CertificateSound certificates_judged looped.bytes.now certificate.now exclusion }
    ensures { (lent : List ℤ) → Judged looped.entry.bytes.now certificate.now lent result lent }
{
    match judge_exclusion::exclusion(looped.rows(), certificate) {
        Ok(()) => accepted(Outcome::Exclusion {
            grade: grade(certificate, looped.n),
        }),
        Err(fault) => refused(2, fault.number, fault.place),
    }
}

// Whole where q divides every entry of W and of V.
fn grade(certificate: &[u8], n: usize) -> Grade
    requires { (8 + 12 * n ≤ length certificate.now) × (n ≤ 16) × (0 < little_at 2 certificate.now 6) }
    ensures { result ≡ grade_of (exclusion_held certificate.now n) }
{
    if judge_grade::whole_step(certificate, n) {
        Grade::Whole
    } else {
        Grade::Fractions
    }
}

// ---- by the certificate's kind: its frame and kind are right, and the loop is sound. These are put in place where they are called, so that
// the loop is not handed on through memory

// Kind 2: what else is wrong with the record, the rank list, and then the conditions.
#[inline(always)]
pub fn by_ranking(looped: SoundLoop, certificate: OfKind<2>, rank: &mut [i64]) -> Verdict
    ensures { Judged looped.entry.bytes.now certificate.entry.bytes.now rank.old result rank.new }
{
    match record_check::ranking_record(certificate, looped.n, looped.m) {
        Ok(_) => ranking_sound(looped, certificate.bytes, rank),
        Err(fault) => refused(2, fault.number, fault.place),
    }
}

// Kind 3, which has no rank.
#[inline(always)]
pub fn by_exclusion(looped: SoundLoop, certificate: OfKind<3>) -> Verdict
    ensures { (lent : List ℤ) → Judged looped.entry.bytes.now certificate.entry.bytes.now lent result lent }
{
    match record_check::exclusion_record(certificate, looped.n, looped.m) {
        Ok(_) => exclusion_sound(looped, certificate.bytes),
        Err(fault) => refused(2, fault.number, fault.place),
    }
}

// Kind 4.
#[inline(always)]
pub fn by_lasso(looped: SoundLoop, certificate: OfKind<4>, rank: &mut [i64]) -> Verdict
    ensures { Judged looped.entry.bytes.now certificate.entry.bytes.now rank.old result rank.new }
{
    match record_check::lasso_record(certificate, looped.n, looped.m) {
        Ok(checked) => lasso_sound(looped, certificate.bytes, checked.ms, rank),
        Err(fault) => refused(2, fault.number, fault.place),
    }
}

// Judges a certificate for a loop record that has been checked, so that a sheet checks its loop once.
pub fn judge_sound(looped: SoundLoop, certificate: &[u8], rank: &mut [i64]) -> Verdict
    ensures { Judged looped.entry.bytes.now certificate.now rank.old result rank.new }
{
    if let Err(fault) = record_check::frame(certificate) {
        return refused(2, fault.number, fault.place);
    }
    match endian::u16_at(certificate, 4) {
        2 => by_ranking(looped, OfKind { bytes: certificate }, rank),
        3 => by_exclusion(looped, OfKind { bytes: certificate }),
        4 => by_lasso(looped, OfKind { bytes: certificate }, rank),
        _ => refused(2, 4, 4),
    }
}
