// A short ranking for a loop of m rows: as many triples as it says, each of one of the rows.
#![tactic(auto)]

ghost use Rattle.record_short_write.specs.Rooms.{Lengthens};

// Whoever has one knows that each triple has its places in a kind 2 record.
#[derive(Clone, Copy)]
pub struct SoundShort<'a> {
    pub bytes: &'a [u8],
    pub m: usize,
    ghost lengthens: { Lengthens m bytes.now },
}
