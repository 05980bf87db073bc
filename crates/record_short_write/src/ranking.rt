// A ranking of kind 2 for a loop of m rows, as long as its rows say.
#![tactic(auto)]

ghost use Rattle.record_short_write.specs.Rooms.{Lists};

// Whoever has one knows where the multipliers of each row lie.
#[derive(Clone, Copy)]
pub struct SoundRanking<'a> {
    pub bytes: &'a [u8],
    pub m: usize,
    ghost lists: { Lists m bytes.now },
}
