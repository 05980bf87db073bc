// Bound by a short ranking (kind 7): it becomes the kind 2 record that it stands for, in a buffer of its own, and then the one bound tells
// the steps.
#![tactic(auto)]

ghost use Rattle.std.specs.Prelude.{◌≡◌, true};
ghost use Rattle.verdict_short.specs.ShortJudging.{of_short, bounded_or_short};

use judge::SoundLoop;
use judge_along::State;
use verdict::Bounded;

// A certificate of kind 7 and a state, for a loop record that has been checked.
pub fn by_short(looped: SoundLoop, certificate: &[u8], state: &[i64]) -> Bounded
    requires { of_short certificate.now ≡ true }
    ensures { result ≡ bounded_or_short looped.entry.bytes.now certificate.now state.now }
{
    if let Err(fault) = record_short_check::check_short(certificate, looped.n, looped.m) {
        return judge_bound::refused(2, fault.number, fault.place);
    }
    if let Err(fault) = judge_state::state_fault(state, looped.n) {
        return judge_bound::refused(0, fault.number, fault.place);
    }
    let mut long = [0u8; 262];
    record_short_write::lengthen_into(certificate, looped.m, &mut long);
    judge_bound::ranking_bound(looped, &long[..6 + 4 * looped.m], State { entries: state })
}
