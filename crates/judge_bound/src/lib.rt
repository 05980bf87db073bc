// How many steps a loop of kind 1 that has been checked can take from a state, by a certificate of kind 2 or 4.
#![tactic(auto)]

ghost use Rattle.std.specs.Prelude.{◌≡◌, cond, ◌+◌, ◌/◌, ◌<◌, ◌≤◌, pos, nat_abs, ◌-ℤ◌, ◌<ℤ◌, length, take};
ghost use Rattle.std.specs.Int.Signed.{lt_z};
ghost use Rattle.theory.specs.Rankings as Rankings;
ghost use Rattle.verdict.specs.Bounding.{bounds, bound_of, certificates_bounded};
ghost use Rattle.judge_lasso.specs.LassoAt.{lasso_at};
ghost use Rattle.record.specs.Layouts.{ranking};
ghost use Rattle.judge.specs.SoundPairs.{CertificateSound, LassoSound};
ghost use Rattle.judge_bound.specs.BoundShown.{no_bound, StateFits, BoundFits, invariant_held};

use judge::SoundLoop;
use judge_along::State;
use judge_lasso::LassoRecord;
use judge_ranking::Ranked;
use record_check::OfKind;
use verdict::{Bounded, Outcome};

// A refusal, in the fields of a bound's answer, as judging makes it: it has no bound.
pub fn refused(about: usize, number: usize, place: usize) -> Bounded
    ensures { result ≡ no_bound about number place }
{
    Bounded {
        verdict: judge::refused(about, number, place),
        bound: 0,
    }
}

// 0 if a value lies below the start; otherwise the whole part of how often the fall goes into what is above it, plus 1.
fn steps(value: i64, start: i64, fall: i64) -> usize
    requires { (nat_abs (value -ℤ start) < 9223372036854775808) × (pos 0 <ℤ fall) }
    ensures { result ≡ cond (lt_z value start) 0 (nat_abs (value -ℤ start) / nat_abs fall + 1) }
{
    if value < start {
        return 0;
    }
    (value - start) as usize / fall as usize + 1
}

// The bound at a state by a rank, its start and its fall.
fn bound_at(entries: &[i64], start: i64, fall: i64, state: State) -> usize
    requires { BoundFits entries.now start fall state.entries.now × (length state.entries.now ≤ 16) }
    ensures { result ≡ Rankings.bound (take (length state.entry.entries.now) entries.now) start fall state.entry.entries.now }
{
    let value = judge_along::rank_at(&entries[..state.entries.len()], state);
    steps(value.sum, start, fall)
}

// A lasso's invariant at a state.
fn meets_invariant(certificate: LassoRecord, state: State) -> bool
    requires { length state.entries.now ≡ certificate.n }
    ensures { result ≡ invariant_held (lasso_at certificate.entry) state.entry.entries.now }
{
    let reached = judge_along::entries_at(certificate.bytes, certificate.s_place(), state);
    0 <= reached.sum + certificate.s0()
}

// ---- of sound records and a state in range

// Kind 2: the conditions, and then the bound.
pub fn ranking_bound(looped: SoundLoop, certificate: &[u8], state: State) -> Bounded
    requires { CertificateSound certificates_bounded looped.bytes.now certificate.now ranking × StateFits state.entries.now looped.n }
    ensures { result ≡ bounds (bound_of looped.entry.bytes.now certificate.now state.entry.entries.now) }
{
    let mut entries = [0i64; 16];
    match judge_ranking::ranking(looped.rows(), certificate, &mut entries) {
        Ok(Ranked { start, fall }) => Bounded {
            verdict: judge::accepted(Outcome::Ranking { start, fall }),
            bound: bound_at(&entries, start, fall, state),
        },
        Err(fault) => refused(2, fault.number, fault.place),
    }
}

// Kind 4, of ms stem rows: its bound is for the states that meet the invariant.
fn lasso_bound(looped: SoundLoop, certificate: &[u8], ms: usize, state: State) -> Bounded
    requires { LassoSound certificates_bounded looped.bytes.now certificate.now ms × StateFits state.entries.now looped.n }
    ensures { result ≡ bounds (bound_of looped.entry.bytes.now certificate.now state.entry.entries.now) }
{
    let mut entries = [0i64; 16];
    let lasso = LassoRecord {
        bytes: certificate,
        n: looped.n,
        m: looped.m,
        ms,
    };
    match judge_lasso::lasso(looped.rows(), lasso, &mut entries) {
        Ok(Ranked { start, fall }) => {
            if !meets_invariant(lasso, state) {
                return refused(2, 11, 0);
            }
            Bounded {
                verdict: judge::accepted(Outcome::Lasso { start, fall }),
                bound: bound_at(&entries, start, fall, state),
            }
        }
        Err(fault) => refused(2, fault.number, fault.place),
    }
}

// ---- by the certificate's kind: its frame and kind are right, and the loop is sound

// Kind 2: what else is wrong with the record, the state, and then the conditions.
pub fn by_ranking(looped: SoundLoop, certificate: OfKind<2>, state: &[i64]) -> Bounded
    ensures { result ≡ bounds (bound_of looped.entry.bytes.now certificate.entry.bytes.now state.now) }
{
    if let Err(fault) = record_check::ranking_record(certificate, looped.n, looped.m) {
        return refused(2, fault.number, fault.place);
    }
    if let Err(fault) = judge_state::state_fault(state, looped.n) {
        return refused(0, fault.number, fault.place);
    }
    ranking_bound(looped, certificate.bytes, State { entries: state })
}

// Kind 4.
pub fn by_lasso(looped: SoundLoop, certificate: OfKind<4>, state: &[i64]) -> Bounded
    ensures { result ≡ bounds (bound_of looped.entry.bytes.now certificate.entry.bytes.now state.now) }
{
    let checked = match record_check::lasso_record(certificate, looped.n, looped.m) {
        Ok(checked) => checked,
        Err(fault) => return refused(2, fault.number, fault.place),
    };
    if let Err(fault) = judge_state::state_fault(state, looped.n) {
        return refused(0, fault.number, fault.place);
    }
    lasso_bound(
        looped,
        certificate.bytes,
        checked.ms,
        State { entries: state },
    )
}
