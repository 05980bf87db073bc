// The list of values that a record is to be written of, as a source: it is walked, and a fault's place is where the record would have it.
// A run goes by fours first.
#![tactic(auto)]

ghost use Rattle.std.specs.Prelude.{◌+◌, ◌≤◌, ◌<◌, ◌≡◌, pos, length, get_or, drop, replicate};
ghost use Rattle.record.specs.Fields.{in_range};
ghost use Rattle.record.specs.Ranges.{within};
ghost use Rattle.record_list_faults.specs.ListAnswers.{list_answer, list_has, list_in_parts};

use crate::between;
use record_faults::{BodyField, Numbers, Source, walk};
use refusal::{Fault, refused};

// The values from an index on, the first of which would stand at a place.
#[derive(Clone, Copy)]
pub struct InList<'a> {
    pub values: &'a [i64],
    pub index: usize,
    pub place: usize,
}

// The value at an index is in the field's range.
fn value_fits<F: BodyField>(values: &[i64], index: usize) -> bool
    requires { index < length values.now }
    ensures { result ≡ within F.field.range (get_or values.now index (pos 0)) }
{
    between(values[index], F::LEAST, F::MOST)
}

impl Numbers for InList<'_> {
    ghost answer = { list_answer };

    ghost has = { list_has };

    ghost parts = { list_in_parts };

    fn field_fault<F: BodyField>(self) -> Result<Self, Fault> {
        if value_fits::<F>(self.values, self.index) {
            Ok(InList {
                values: self.values,
                index: self.index + 1,
                place: self.place + F::WIDE,
            })
        } else {
            refused(6, self.place)
        }
    }
}

// Each of four values, from an index on, is.
fn four_fit<F: BodyField>(values: &[i64], index: usize) -> bool
    requires { index + 4 ≤ length values.now }
    ensures { result ≡ in_range (replicate 4 F.field) (drop index values.now) }
{
    value_fits::<F>(values, index)
        & value_fits::<F>(values, index + 1)
        & value_fits::<F>(values, index + 2)
        & value_fits::<F>(values, index + 3)
}

impl Source for InList<'_> {
    // Four at a time, while they are in range: what is left is walked.
    fn run_fault<F: BodyField>(self, count: usize) -> Result<Self, Fault> {
        let mut source = self;
        let mut left = count;
        while 4 <= left && four_fit::<F>(source.values, source.index) {
            source = InList {
                values: source.values,
                index: source.index + 4,
                place: source.place + 4 * F::WIDE,
            };
            left -= 4;
        }
        walk::<Self, F>(source, left)
    }
}
