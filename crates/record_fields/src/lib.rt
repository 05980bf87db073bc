// What the checks, the readers and the writer share: the forms of numbers; runs of equal fields; and how long a record and its list are.
// A kind is its number, here and above: so it stands in a record, so the paper decides on it, and any number may come from outside.
#![tactic(auto, unfolding(record::specs::Layouts::kind_of, record::specs::Layouts::length_of, crate::specs::Runs::value_count))]

ghost use Rattle.std.specs.Prelude.{◌≤◌, ◌≡◌};
ghost use Rattle.record.specs.Layouts.{kind_of, length_of};
ghost use Rattle.record_fields.specs.Runs.{value_count};

mod number;

pub use number::Number;
use record::Counts;

// How many values the list of a record has.
pub fn value_count(kind: usize, counts: Counts) -> usize
    requires { (counts.n ≤ 16) × (counts.m ≤ 64) × (counts.ms ≤ 64) }
    ensures { result ≡ value_count (kind_of kind) counts }
{
    let Counts { n, m, ms } = counts;
    match kind {
        1 => m * (2 * n + 1),
        2 => 2 * m,
        3 => 1 + 3 * n,
        4 => 7 + n + ms * (2 * n + 2) + 3 * m,
        _ => 0,
    }
}

// The bytes that follow a record's length.
pub fn record_length(kind: usize, counts: Counts) -> usize
    requires { (counts.n ≤ 16) × (counts.m ≤ 64) × (counts.ms ≤ 64) }
    ensures { result ≡ length_of (kind_of kind) counts }
{
    let Counts { n, m, ms } = counts;
    match kind {
        1 => 6 + m * (4 * n + 4),
        2 => 2 + 4 * m,
        3 => 4 + 12 * n,
        4 => 18 + 2 * n + ms * (4 * n + 6) + 6 * m,
        _ => 0,
    }
}
