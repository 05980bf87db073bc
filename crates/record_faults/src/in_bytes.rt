// The bytes of a record as a source: a run has two loops, which test the bytes where they stand, one comparison a field. One says whether
// all are in range, several at a time; the other tells the first that is not.
#![tactic(auto)]

ghost use Rattle.std.specs.Prelude.{◌+◌, ◌*◌, ◌≤◌, ◌≡◌, length};
ghost use Rattle.record_fields.specs.Runs.{all_fit};
ghost use Rattle.record_faults.specs.BytesAnswers.{bytes_answer, bytes_have, bytes_in_parts};

use crate::{BodyField, Numbers, Source, walk};
use refusal::Fault;

// The bytes of a record, from a place on.
#[derive(Clone, Copy)]
pub struct InBytes<'a> {
    pub bytes: &'a [u8],
    pub place: usize,
}

impl Numbers for InBytes<'_> {
    ghost answer = { bytes_answer };

    ghost has = { bytes_have };

    ghost parts = { bytes_in_parts };

    fn field_fault<F: BodyField>(self) -> Result<Self, Fault> {
        if F::fits(self.bytes, self.place) {
            Ok(InBytes {
                bytes: self.bytes,
                place: self.place + F::WIDE,
            })
        } else {
            refusal::refused(6, self.place)
        }
    }
}

// Whether all is in range. It goes to the end whatever it meets, so that the compiler tests several fields at once.
fn run_fits<F: BodyField>(bytes: &[u8], place: usize, count: usize) -> bool
    requires { place + count * F.WIDE ≤ length bytes.now }
    ensures { result ≡ all_fit F.field bytes.now place count }
{
    let mut all = true;
    for i in 0..count {
        all = all & F::fits(bytes, place + F::WIDE * i);
    }
    all
}

impl Source for InBytes<'_> {
    fn run_fault<F: BodyField>(self, count: usize) -> Result<Self, Fault> {
        if run_fits::<F>(self.bytes, self.place, count) {
            Ok(InBytes {
                bytes: self.bytes,
                place: self.place + count * F::WIDE,
            })
        } else {
            // Some field is out of range: said so, the way on from a run needs no second look at what is told.
            Err(walk::<Self, F>(self, count).unwrap_err())
        }
    }
}
