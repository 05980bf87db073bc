// A job's certificates at once: the loop is checked once, the room is asked for before anything is judged, and then each record is judged in turn
// with its stretch of the rank numbers.
#![tactic(auto)]

ghost use Rattle.std.specs.Prelude.{◌+◌, ◌*◌, ◌-◌, ◌≤◌, ◌≡◌, length, take, drop};
ghost use Rattle.refusal.specs.Faults.{result_of};
ghost use Rattle.refusal.specs.Tests.{done};
ghost use Rattle.judge_by_kind.specs.PastFrames.{Past};
ghost use Rattle.verdict_short.specs.Answers.{answered, rank_answered};
ghost use Rattle.verdict_flat.specs.FlatVerdicts.{flat_verdict};
ghost use Rattle.verdict_batch.specs.Batches.{loop_told, variables, stretch, with_stretch, batch_of, batch_answers};

use judge::SoundLoop;
use record_check::OfKind;
use refusal::Fault;
use verdict::Verdict;
use verdict_batch::Batched;
use verdict_flat::FlatVerdict;

// ---- the refusals

// What the tests of a loop record tell, by its kind.
fn check_loop(loopbytes: &[u8]) -> Result<(), Fault>
    ensures { result ≡ result_of (loop_told loopbytes.now) tt }
{
    record_check::frame(loopbytes)?;
    if endian::u16_at(loopbytes, 4) == 5 {
        return record_paths_check::check_paths(loopbytes);
    }
    record_check::check_loop(loopbytes)?;
    Ok(())
}

// A refusal of the whole batch, in the fields of its answer: no record is judged.
fn refused(about: usize, number: usize, place: usize) -> Batched
    ensures { result ≡ record { number = number; place = place; about = about; count = 0 } }
{
    Batched {
        number,
        place,
        about,
        count: 0,
    }
}

// What the call answers: a refusal, or how many records there are to judge.
pub fn enter(loopbytes: &[u8], bytes: &[u8], places: usize, numbers: usize) -> Batched
    ensures { result ≡ batch_answers (batch_of loopbytes.now bytes.now places numbers) }
{
    if let Err(fault) = check_loop(loopbytes) {
        return refused(1, fault.number, fault.place);
    }
    let count = record_parting::count(bytes);
    if count > 32 {
        return refused(0, 13, count);
    }
    if places < count {
        return refused(0, 7, count);
    }
    let needed = endian::u16_at(loopbytes, 6) * count;
    if numbers < needed {
        return refused(0, 7, needed);
    }
    Batched {
        number: 0,
        place: 0,
        about: 0,
        count,
    }
}

// ---- one record

// Kinds 3 and 7, whose judges are functions that are called, and the numbers that no kind has.
fn judge_others(looped: SoundLoop, certificate: &[u8], kind: usize, rank: &mut [i64]) -> Verdict
    requires past_frame { Past certificate.now kind }
    requires other_kind { (kind ≡ 2 → ⊥) × (kind ≡ 4 → ⊥) × (kind ≡ 8 → ⊥) }
    ensures { (result ≡ answered looped.entry.bytes.now certificate.now rank.old)
        × (rank.new ≡ rank_answered looped.entry.bytes.now certificate.now rank.old) }
{
    match kind {
        3 => judge::by_exclusion(
            looped,
            OfKind {
                bytes: &certificate[..],
            },
        ),
        7 => judge_short::by_short(looped, &certificate[..], rank),
        _ => judge::refused(2, 4, 4),
    }
}

// Judges a certificate for a loop record of kind 1 that has been checked, as `judge_by_kind` does. Kinds 2, 4 and 8 tell their verdicts in
// numbers each by itself: put into one place with the others first, a verdict would be read there before it is written through (`docs/PERFORMANCE.md`,
// "A batch").
fn flat_certificate(looped: SoundLoop, certificate: &[u8], rank: &mut [i64]) -> FlatVerdict
    ensures { (result ≡ flat_verdict (answered looped.entry.bytes.now certificate.now rank.old))
        × (rank.new ≡ rank_answered looped.entry.bytes.now certificate.now rank.old) }
{
    if let Err(fault) = record_check::frame(certificate) {
        return FlatVerdict::from(judge::refused(2, fault.number, fault.place));
    }
    let kind = endian::u16_at(certificate, 4);
    match kind {
        2 => FlatVerdict::from(judge::by_ranking(
            looped,
            OfKind {
                bytes: &certificate[..],
            },
            rank,
        )),
        4 => FlatVerdict::from(judge::by_lasso(
            looped,
            OfKind {
                bytes: &certificate[..],
            },
            rank,
        )),
        8 => FlatVerdict::from(judge_by_kind::settling_sound(looped, &certificate[..], rank)),
        _ => FlatVerdict::from(judge_others(looped, &certificate[..], kind, rank)),
    }
}

// Judges the record between two places, with stretch i of the rank numbers, for a loop that has been checked, and tells the verdict in numbers.
pub fn flat_part(
    loopbytes: &[u8],
    bytes: &[u8],
    from: usize,
    end: usize,
    i: usize,
    ranks: &mut [i64],
) -> FlatVerdict
    requires loop_sound { loop_told loopbytes.now ≡ done }
    requires in_order { (from ≤ end) × (end ≤ length bytes.now) }
    requires room { variables loopbytes.now * i + variables loopbytes.now ≤ length ranks.old }
    ensures { (result ≡ flat_verdict (answered loopbytes.now (take (end - from) (drop from bytes.now))
        (stretch (variables loopbytes.now) i ranks.old)))
        × (ranks.new ≡ with_stretch (variables loopbytes.now) i
        (rank_answered loopbytes.now (take (end - from) (drop from bytes.now)) (stretch (variables loopbytes.now) i ranks.old))
        ranks.old) }
{
    let certificate = &bytes[from..end];
    if endian::u16_at(loopbytes, 4) == 5 {
        return FlatVerdict::from(judge_by_kind::judge_paths_sound(loopbytes, certificate));
    }
    let n = endian::u16_at(loopbytes, 6);
    let m = endian::u16_at(loopbytes, 8);
    let at = n * i;
    let looped = SoundLoop {
        bytes: loopbytes,
        n,
        m,
    };
    flat_certificate(looped, certificate, &mut ranks[at..at + n])
}

// The same, with the verdict as it is.
pub fn judge_part(
    loopbytes: &[u8],
    bytes: &[u8],
    from: usize,
    end: usize,
    i: usize,
    ranks: &mut [i64],
) -> Verdict
    requires loop_sound { loop_told loopbytes.now ≡ done }
    requires in_order { (from ≤ end) × (end ≤ length bytes.now) }
    requires room { variables loopbytes.now * i + variables loopbytes.now ≤ length ranks.old }
    ensures { (result ≡ answered loopbytes.now (take (end - from) (drop from bytes.now)) (stretch (variables loopbytes.now) i ranks.old))
        × (ranks.new ≡ with_stretch (variables loopbytes.now) i
        (rank_answered loopbytes.now (take (end - from) (drop from bytes.now)) (stretch (variables loopbytes.now) i ranks.old))
        ranks.old) }
{
    Verdict::from(flat_part(loopbytes, bytes, from, end, i, ranks))
}
