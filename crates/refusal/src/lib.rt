// What every call has: refusals in order, and a promise that leaves one answer. Definitions and laws, and a refusal as a value.
#![tactic(auto)]

ghost use Rattle.std.specs.Prelude.{◌≡◌, Err};

// A refusal: its number and its place. It is told by its number, as in the paper's list, which callers and the definition `Told` go by: no enum.
#[derive(Clone, Copy, Debug, PartialEq, Eq)]
pub struct Fault {
    pub number: usize,
    pub place: usize,
}

// A refusal, as the answer of whatever tells it.
pub fn refused<T>(number: usize, place: usize) -> Result<T, Fault>
    ensures { result ≡ Err (record { number = number; place = place }) }
{
    Err(Fault { number, place })
}
