// A state whose entries are small enough for the sums at it to fit.
#![tactic(auto)]

ghost use Rattle.whole.specs.Sums.{Within};

#[derive(Clone, Copy)]
pub struct State<'a> {
    pub entries: &'a [i64],
    ghost small: { Within 1048576 entries.now },
}
