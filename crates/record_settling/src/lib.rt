// Whether bytes are a sound record of kind 8 (02, Q-8): the tests of "Order for a record", for a loop over n variables with m rows. Both
// counts come from a sound loop, so they are within the limits. A record is visited once and never copied.
#![tactic(auto)]

ghost use Rattle.std.specs.Prelude.{◌≤◌, ◌≡◌};
ghost use Rattle.refusal.specs.Faults.{result_of};
ghost use Rattle.refusal.specs.Tests.{first};
ghost use Rattle.record_paths.specs.PathFields.{bytes_alone};
ghost use Rattle.record_settling.specs.SettlingRecords.{settling_fields, sound_settling};

use record_faults::{InBytes, Source, linear_fault, weights_fault};
use refusal::{Fault, refused};

// The values: g and t are a linear part, k and all multipliers one of weights.
fn settling_fault<S: Source>(source: S, n: usize, m: usize) -> Result<S, Fault>
    requires { S.has source (settling_fields n m) }
    ensures { result ≡ S.answer source (settling_fields n m) }
{
    weights_fault(linear_fault(source, n)?, 3 * m + 2)
}

// Whether bytes are a sound record of kind 8.
pub fn check_settling(bytes: &[u8], n: usize, m: usize) -> Result<(), Fault>
    requires { (n ≤ 16) × (m ≤ 64) }
    ensures { result ≡ result_of (first (sound_settling n m) (bytes_alone bytes.now)) tt }
{
    record_check::frame(bytes)?;
    if endian::u16_at(bytes, 4) != 8 {
        return refused(4, 4);
    }
    if bytes.len() != 16 + 2 * n + 6 * m {
        return refused(3, 0);
    }
    settling_fault(InBytes { bytes, place: 6 }, n, m)?;
    Ok(())
}
