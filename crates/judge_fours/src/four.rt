// Four multipliers (u16), one after another.
#![tactic(auto)]

ghost use Rattle.std.specs.Prelude.{◌<◌};

#[derive(Clone, Copy)]
pub struct Four {
    pub first: usize,
    pub second: usize,
    pub third: usize,
    pub fourth: usize,
    ghost small: { (first < 65536) × (second < 65536) × (third < 65536) × (fourth < 65536) },
}
