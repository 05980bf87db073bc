// The tests of a state (01, "Numbers of the verdict": 10, then 9), for every call that takes one.
#![tactic(auto)]

ghost use Rattle.std.specs.Prelude.{◌≡◌};
ghost use Rattle.refusal.specs.Faults.{result_of};
ghost use Rattle.refusal.specs.Tests.{first};
ghost use Rattle.verdict.specs.StateTests.{state_tests};

use refusal::{Fault, refused};

// Tests a state for a loop of n variables.
pub fn state_fault(state: &[i64], n: usize) -> Result<(), Fault>
    ensures { result ≡ result_of (first state_tests (record { n = n; state = state.now })) tt }
{
    if state.len() != n {
        return refused(10, state.len());
    }
    for (i, entry) in state.iter().enumerate() {
        if !record_list_faults::between(*entry, -1000000, 1000000) {
            return refused(9, i);
        }
    }
    Ok(())
}
