// A lasso as it lies in the bytes of its record, for a loop of m rows over n variables: ms stem rows from 8 on, then s, s0, k, T, k2, H, h0,
// Y and Z (01, "Records on file").
#![tactic(auto)]

ghost use Rattle.judge_lasso.specs.LassoHeld.{LassoIn};

#[derive(Clone, Copy)]
pub struct LassoRecord<'a> {
    pub bytes: &'a [u8],
    pub n: usize,
    pub m: usize,
    pub ms: usize,
    ghost lies: { LassoIn bytes.now n m ms },
}

impl LassoRecord<'_> {
    ghost use Rattle.std.specs.Prelude.{◌≡◌, ◌+◌, ◌*◌, ◌≤◌, nat_abs};
    ghost use Rattle.judge_sums.specs.Places.{right_at};
    ghost use Rattle.judge_lasso.specs.LassoHeld.{s_place, s0_place, k_place, k2_place, Y-place};

    // Where s stands.
    pub fn s_place(self) -> usize
        ensures { (result ≡ s_place self.entry.n self.entry.ms) × (result ≤ 4360) }
    {
        8 + self.ms * (4 * self.n + 4)
    }

    pub fn s0(self) -> i64
        ensures { (result ≡ right_at self.entry.bytes.now (s0_place self.entry.n self.entry.ms)) × (nat_abs result ≤ 2147483648) }
    {
        endian::i32_at(self.bytes, self.s_place() + 2 * self.n)
    }

    // Where k stands, and after it T.
    pub fn k_place(self) -> usize
        ensures { result ≡ k_place self.entry.n self.entry.ms }
    {
        self.s_place() + 2 * self.n + 4
    }

    // Where k2 stands, and after it H and h0.
    pub fn k2_place(self) -> usize
        ensures { result ≡ k2_place self.entry.n self.entry.ms }
    {
        self.k_place() + 2 + 2 * self.ms
    }

    // Where Y stands, and after it Z.
    pub fn y_place(self) -> usize
        ensures { result ≡ Y-place self.entry.n self.entry.m self.entry.ms }
    {
        self.k2_place() + 4 + 2 * self.m
    }
}
