// The judge: whether a certificate's bytes prove what they claim of a loop's bytes, by the records' kinds. Every input has an answer; a
// refusal changes nothing that was lent.
#![tactic(auto)]

ghost use Rattle.std.specs.Prelude.{◌≡◌};
ghost use Rattle.endian.specs.Numbers.{little_at};
ghost use Rattle.record_paths.specs.PathFields.{bytes_alone};
ghost use Rattle.record_paths.specs.PathLoops.{sound_paths};
ghost use Rattle.refusal.specs.Tests.{done, first};
ghost use Rattle.verdict_paths.specs.PathJudging.{path_judges};
ghost use Rattle.verdict_short.specs.Answers.{answered, rank_answered};
ghost use Rattle.judge_by_kind.specs.SettlingShown.{SettlingJudged};

use judge::SoundLoop;
use judge_ranking::Ranked;
use record_check::{Checked, OfKind};
use verdict::{Outcome, Verdict};

// Judges a certificate for a loop record of kind 5 that has been checked. There is no rank.
pub fn judge_paths_sound(loopbytes: &[u8], certificate: &[u8]) -> Verdict
    requires { first sound_paths (bytes_alone loopbytes.now) ≡ done }
    ensures { result ≡ path_judges (record { loopbytes = loopbytes.now; certificate = certificate.now }) }
{
    if let Err(fault) = record_paths_check::check_lexicographic(loopbytes, certificate) {
        return judge::refused(2, fault.number, fault.place);
    }
    match judge_paths::paths_fault(loopbytes, certificate) {
        Ok(()) => judge::accepted(Outcome::Lexicographic),
        Err(fault) => judge::refused(2, fault.number, fault.place),
    }
}

// A loop of several paths, kind 5, with a certificate of kind 6.
fn judge_paths(loopbytes: &[u8], certificate: &[u8]) -> Verdict
    ensures { result ≡ path_judges (record { loopbytes = loopbytes.now; certificate = certificate.now }) }
{
    match record_paths_check::check_paths(loopbytes) {
        Ok(()) => judge_paths_sound(loopbytes, certificate),
        Err(fault) => judge::refused(1, fault.number, fault.place),
    }
}

// A certificate of kind 8, for a loop record that has been checked. It is put in place as the judges of the other kinds are.
#[inline(always)]
pub fn settling_sound(looped: SoundLoop, certificate: &[u8], rank: &mut [i64]) -> Verdict
    ensures { SettlingJudged looped.entry.bytes.now certificate.now rank.old result rank.new }
{
    if let Err(fault) = record_settling::check_settling(certificate, looped.n, looped.m) {
        return judge::refused(2, fault.number, fault.place);
    }
    if rank.len() < looped.n {
        return judge::refused(0, 7, looped.n);
    }
    match judge_settling::settling(looped.rows(), certificate, rank) {
        Ok(Ranked { start, fall }) => judge::accepted(Outcome::Settling { start, fall }),
        Err(fault) => judge::refused(2, fault.number, fault.place),
    }
}

// Judges a certificate for a loop record that has been checked: its frame is the same for every kind, and its kind decides the rest. Its bytes are
// handed on as `[..]`, in two parts: a copy of both at once would wait for the caller's stores.
fn judge_certificate(looped: SoundLoop, certificate: &[u8], rank: &mut [i64]) -> Verdict
    ensures { (result ≡ answered looped.entry.bytes.now certificate.now rank.old)
        × (rank.new ≡ rank_answered looped.entry.bytes.now certificate.now rank.old) }
{
    if let Err(fault) = record_check::frame(certificate) {
        return judge::refused(2, fault.number, fault.place);
    }
    match endian::u16_at(certificate, 4) {
        2 => judge::by_ranking(
            looped,
            OfKind {
                bytes: &certificate[..],
            },
            rank,
        ),
        3 => judge::by_exclusion(
            looped,
            OfKind {
                bytes: &certificate[..],
            },
        ),
        4 => judge::by_lasso(
            looped,
            OfKind {
                bytes: &certificate[..],
            },
            rank,
        ),
        7 => judge_short::by_short(looped, &certificate[..], rank),
        8 => settling_sound(looped, &certificate[..], rank),
        _ => judge::refused(2, 4, 4),
    }
}

// A loop record of kind 1 whose frame is right.
fn judge_rows(loopbytes: OfKind<1>, certificate: &[u8], rank: &mut [i64]) -> Verdict
    ensures { (result ≡ answered loopbytes.entry.bytes.now certificate.now rank.old)
        × (rank.new ≡ rank_answered loopbytes.entry.bytes.now certificate.now rank.old) }
{
    match record_check::loop_record(loopbytes) {
        Ok(Checked { n, m, .. }) => {
            let looped = SoundLoop {
                bytes: loopbytes.bytes,
                n,
                m,
            };
            judge_certificate(looped, certificate, rank)
        }
        Err(fault) => judge::refused(1, fault.number, fault.place),
    }
}

// Judges a certificate's bytes for a loop's bytes.
pub fn judge(loopbytes: &[u8], certificate: &[u8], rank: &mut [i64]) -> Verdict
    ensures value { result ≡ answered loopbytes.now certificate.now rank.old }
    ensures rank_after { rank.new ≡ rank_answered loopbytes.now certificate.now rank.old }
{
    if let Err(fault) = record_check::frame(loopbytes) {
        return judge::refused(1, fault.number, fault.place);
    }
    match endian::u16_at(loopbytes, 4) {
        1 => judge_rows(OfKind { bytes: loopbytes }, certificate, rank),
        5 => judge_paths(loopbytes, certificate),
        _ => judge::refused(1, 4, 4),
    }
}
