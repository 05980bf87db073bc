// A loop record of kind 1 that has been checked, with its counts.
#![tactic(auto)]

ghost use Rattle.std.specs.Prelude.{◌≡◌};
ghost use Rattle.judge.specs.LoopSound.{LoopSound, first_row};

use judge_sums::Rows;

// Where the first row of a loop record starts.
pub const FIRST_ROW: usize = 10;

#[derive(Clone, Copy)]
pub struct SoundLoop<'a> {
    pub bytes: &'a [u8],
    pub n: usize,
    pub m: usize,
    ghost sound: { LoopSound bytes.now n m },
}

impl<'a> SoundLoop<'a> {
    // Its rows.
    pub fn rows(self) -> Rows<'a>
        ensures { (result.bytes ≡ self.entry.bytes) × (result.start ≡ first_row)
            × (result.n ≡ self.entry.n) × (result.count ≡ self.entry.m) }
    {
        Rows {
            bytes: self.bytes,
            start: FIRST_ROW,
            n: self.n,
            count: self.m,
        }
    }
}
