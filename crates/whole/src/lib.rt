// Whole numbers: the running sum, in which all sums over rows are made. A sum takes one term after another, and the state goes
// in by value and comes back.
#![tactic(auto)]

ghost use Rattle.std.specs.Prelude.{◌≡◌, pos, ◌+ℤ◌, ◌*ℤ◌};
ghost use Rattle.whole.specs.Ready.{Ready};

// A column total that takes one row after another (01, "Conditions").
#[derive(Clone, Copy)]
pub struct Total {
    pub sum: i64,
}

impl Total {
    pub fn new() -> Total
        ensures { result.sum ≡ pos 0 }
    {
        Total { sum: 0 }
    }

    // Adds multiplier times entry.
    pub fn plus(self, multiplier: i64, entry: i64) -> Total
        requires { Ready self.sum multiplier entry }
        ensures { result.sum ≡ self.sum +ℤ multiplier *ℤ entry }
    {
        Total {
            sum: self.sum + multiplier * entry,
        }
    }
}
