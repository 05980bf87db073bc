// A record as far as its frame and its kind have been looked at.
#![tactic(auto)]

ghost use Rattle.std.specs.Prelude.{◌≡◌};
ghost use Rattle.endian.specs.Numbers.{little_at};
ghost use Rattle.record_check.specs.Framing.{Framed};

// The bytes of a record whose frame is right and whose kind number is KIND.
#[derive(Clone, Copy)]
pub struct OfKind<'a, const KIND: usize> {
    pub bytes: &'a [u8],
    ghost framed: { Framed bytes.now },
    ghost numbered: { little_at 2 bytes.now 4 ≡ KIND },
}
