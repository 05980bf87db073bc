// Totals of columns as they stand in a list: those of n columns over A and then those over A', each with what the lifts come to still in it.
#![tactic(auto)]

ghost use Rattle.std.specs.Prelude.{◌≡◌, ◌*◌, ◌≤◌, length};
ghost use Rattle.judge_sums.specs.Places.{AllModest};
ghost use Rattle.judge_sums.specs.Running.{Modest};

#[derive(Clone, Copy)]
pub struct Lifted<'a> {
    pub sums: &'a [i64],
    pub n: usize,
    pub lift: i64,
    ghost wide: { 2 * n ≤ length sums.now },
    ghost few: { n ≤ 16 },
    ghost sums_modest: { AllModest (2 * n) sums.now },
    ghost lift_modest: { Modest lift },
}

impl<'a> Lifted<'a> {
    ghost use Rattle.std.specs.Prelude.{◌<◌, nat_abs};
    ghost use Rattle.judge_ranking.specs.LiftedTotals.{now_total, next_total};

    // Column j's total over A.
    pub fn now(self, j: usize) -> i64
        requires { j < self.n }
        ensures { (result ≡ now_total self.entry j) × (nat_abs result < 2305843009213693952) }
    {
        self.sums[j] - self.lift
    }

    // Column j's total over A'.
    pub fn next(self, j: usize) -> i64
        requires { j < self.n }
        ensures { (result ≡ next_total self.entry j) × (nat_abs result < 2305843009213693952) }
    {
        self.sums[self.n + j] - self.lift
    }
}

// The same under Y and under Z.
#[derive(Clone, Copy)]
pub struct Totals<'a> {
    pub y: Lifted<'a>,
    pub z: Lifted<'a>,
    ghost alike: { y.n ≡ z.n },
}
