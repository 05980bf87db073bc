// What the conditions of every kind share (01, "Conditions"): the loop that bytes hold, the totals as sums of the theory, a product, a
// negation, and where a condition fails first.
#![tactic(auto)]

ghost use Rattle.std.specs.Prelude.{◌≡◌, Bool, ℕ, ◌+◌, ◌≤◌, nat_abs, neg_ℤ, ◌*ℤ◌};
ghost use Rattle.judge_conditions.specs.Remembered.{first_failing};

// A count or multiplier, or minus one, times a right side or an entry.
pub fn times(factor: i64, z: i64) -> i64
    requires { (nat_abs factor ≤ 65535) × (nat_abs z ≤ 2147483648) }
    ensures { (result ≡ factor *ℤ z) × (nat_abs result ≤ 140735340871680) }
{
    factor * z
}

// -z
pub fn minus(z: i64) -> i64
    requires { nat_abs z ≤ 2147483648 }
    ensures { (result ≡ neg_ℤ z) × (nat_abs result ≤ 2147483648) }
{
    -z
}

// One place more for a condition that is asked at each, while a loop goes on to look for an earlier one: where it fails first, out of where
// it did among the first i places, and whether place i holds.
pub fn remember(late: Option<usize>, i: usize, holds: bool) -> Option<usize>
    ensures { (test : ℕ → Bool) → late ≡ first_failing i test → holds ≡ test i → result ≡ first_failing (i + 1) test }
{
    if holds { late } else { late.or(Some(i)) }
}
