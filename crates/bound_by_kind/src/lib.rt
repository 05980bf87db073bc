// Bound: how many steps a loop can take from a state, by a certificate that has a rank; of a certificate of kind 8, how many at the most
// are taken from states before its threshold (02, Q-8). Every input has an answer.
#![tactic(auto)]

ghost use Rattle.std.specs.Prelude.{◌≡◌, cond, ◌+◌, ◌*◌, ◌≤◌, ◌<◌, nat_abs, ◌-ℤ◌, length};
ghost use Rattle.std.specs.Int.Signed.{lt_z};
ghost use Rattle.endian.specs.Numbers.{little_at};
ghost use Rattle.verdict_settling.specs.AnswersByKind.{bounding_of};
ghost use Rattle.verdict_short.specs.Answers.{bounded_answered};
ghost use Rattle.verdict_settling.specs.SettlingJudging.{settling_bounds};
ghost use Rattle.bound_by_kind.specs.SettlingBounded.{steps_held};

use judge::SoundLoop;
use judge_along::State;
use judge_ranking::Ranked;
use record_check::OfKind;
use verdict::{Bounded, Outcome};

// How far a value lies below a threshold: 0 if it doesn't.
fn below(value: i64, threshold: i64) -> usize
    requires { nat_abs (threshold -ℤ value) < 9223372036854775808 }
    ensures { result ≡ cond (lt_z value threshold) (nat_abs (threshold -ℤ value)) 0 }
{
    if value < threshold {
        return (threshold - value) as usize;
    }
    0
}

// t - g·x at a state, 0 if that is negative.
fn steps_at(certificate: &[u8], state: State) -> usize
    requires { (10 + 2 * length state.entries.now ≤ length certificate.now) × (length state.entries.now ≤ 16) }
    ensures { result ≡ steps_held certificate.now (length state.entry.entries.now) state.entry.entries.now }
{
    let reached = judge_along::entries_at(certificate, 6, state);
    below(
        reached.sum,
        endian::i32_at(certificate, 6 + 2 * state.entries.len()),
    )
}

// A certificate of kind 8 and a state, for a loop record that has been checked.
fn settling_sound(looped: SoundLoop, certificate: &[u8], state: &[i64]) -> Bounded
    ensures { result ≡ settling_bounds (bounding_of looped.entry.bytes.now certificate.now state.now) }
{
    if let Err(fault) = record_settling::check_settling(certificate, looped.n, looped.m) {
        return judge_bound::refused(2, fault.number, fault.place);
    }
    if let Err(fault) = judge_state::state_fault(state, looped.n) {
        return judge_bound::refused(0, fault.number, fault.place);
    }
    let mut entries = [0i64; 16];
    match judge_settling::settling(looped.rows(), certificate, &mut entries) {
        Ok(Ranked { start, fall }) => Bounded {
            verdict: judge::accepted(Outcome::Settling { start, fall }),
            bound: steps_at(certificate, State { entries: state }),
        },
        Err(fault) => judge_bound::refused(2, fault.number, fault.place),
    }
}

// A certificate and a state for a loop record that has been checked: the frame is the same for every kind, and the kind decides the rest.
fn bound_certificate(looped: SoundLoop, certificate: &[u8], state: &[i64]) -> Bounded
    ensures { result ≡ bounded_answered looped.entry.bytes.now certificate.now state.now }
{
    if let Err(fault) = record_check::frame(certificate) {
        return judge_bound::refused(2, fault.number, fault.place);
    }
    match endian::u16_at(certificate, 4) {
        2 => judge_bound::by_ranking(looped, OfKind { bytes: certificate }, state),
        4 => judge_bound::by_lasso(looped, OfKind { bytes: certificate }, state),
        7 => bound_short::by_short(looped, certificate, state),
        8 => settling_sound(looped, certificate, state),
        _ => judge_bound::refused(2, 4, 4),
    }
}

// A loop record of kind 1 whose frame is right.
fn bound_rows(loopbytes: OfKind<1>, certificate: &[u8], state: &[i64]) -> Bounded
    ensures { result ≡ bounded_answered loopbytes.entry.bytes.now certificate.now state.now }
{
    match record_check::loop_record(loopbytes) {
        Ok(checked) => {
            let looped = SoundLoop {
                bytes: loopbytes.bytes,
                n: checked.n,
                m: checked.m,
            };
            bound_certificate(looped, certificate, state)
        }
        Err(fault) => judge_bound::refused(1, fault.number, fault.place),
    }
}

// The bound on steps from a state, by a certificate's bytes for a loop's bytes.
pub fn bound(loopbytes: &[u8], certificate: &[u8], state: &[i64]) -> Bounded
    ensures { result ≡ bounded_answered loopbytes.now certificate.now state.now }
{
    if let Err(fault) = record_check::frame(loopbytes) {
        return judge_bound::refused(1, fault.number, fault.place);
    }
    match endian::u16_at(loopbytes, 4) {
        1 => bound_rows(OfKind { bytes: loopbytes }, certificate, state),
        _ => judge_bound::refused(1, 4, 4),
    }
}
