// The grade of what an exclusion shows (02, Q-7): whether q divides every entry of W and of V, from the bytes of a sound record, so that
// the step it gives is one between whole numbers.
#![tactic(auto)]

ghost use Rattle.std.specs.Prelude.{◌≡◌, ◌+◌, ◌*◌, ◌≤◌, ◌<◌, nat_abs, length};
ghost use Rattle.endian.specs.Numbers.{little_at};
ghost use Rattle.theory.specs.Exclusions.{divides, all_divided, step_is_whole};
ghost use Rattle.judge_sums.specs.Lists.{rights_from};
ghost use Rattle.judge_exclusion.specs.ExclusionHeld.{exclusion_held};

// Whether q divides a number.
#[tactic(auto, unfolding(theory::specs::Exclusions::divides))]
fn divided(z: i64, q: usize) -> bool
    requires { 0 < q }
    ensures { result ≡ divides q z }
{
    z.unsigned_abs() as usize % q == 0
}

// Whether q divides each of `count` numbers from a place on. The first that it doesn't ends the walk.
fn all_divided(certificate: &[u8], place: usize, count: usize, q: usize) -> bool
    requires { (place + 4 * count ≤ length certificate.now) × (place < 65536) × (count ≤ 16) × (0 < q) }
    ensures { result ≡ all_divided q (rights_from certificate.now place count) }
{
    (0..count).all(|j| divided(endian::i32_at(certificate, place + 4 * j), q))
}

// Whether the step that an exclusion gives is between whole numbers. Where q is 1 it is, and nothing is divided.
#[tactic(auto, using(crate::proofs::DividedLaws::whole_by_one, crate::proofs::DividedLaws::not_whole, crate::proofs::DividedLaws::whole_by_V))]
pub fn whole_step(certificate: &[u8], n: usize) -> bool
    requires { (8 + 12 * n ≤ length certificate.now) × (n ≤ 16) × (0 < little_at 2 certificate.now 6) }
    ensures { result ≡ step_is_whole (exclusion_held certificate.now n) }
{
    let q = endian::u16_at(certificate, 6);
    if q == 1 {
        return true;
    }
    if !all_divided(certificate, 8 + 8 * n, n, q) {
        return false;
    }
    all_divided(certificate, 8 + 4 * n, n, q)
}
