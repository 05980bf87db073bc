// Reading a record: a record that is sound, and for whose values there is room, is unpacked into the lent list; all else is refused and
// leaves the list as it was.
#![tactic(auto)]

ghost use Rattle.std.specs.Prelude.{◌≡◌};
ghost use Rattle.record.specs.Readers.{loop_reader, certificate_reader, reads, fills};
ghost use Rattle.record_read.specs.Unpacks.{refusal, Sized, unpacked, unpacks};

use record::{Counts, Reading, Wanted};
use record_check::Checked;

// A refusal, in the fields of a reading: all but number and place are 0.
fn refused(number: usize, place: usize) -> Reading
    ensures { result ≡ refusal number place }
{
    Reading {
        number,
        place,
        kind: 0,
        n: 0,
        m: 0,
        count: 0,
    }
}

// A record that has been checked: a list that is too short is refused, any other is filled. n and m stand in a loop's record alone.
fn unpack(bytes: &[u8], found: Checked, values: &mut [i64]) -> Reading
    requires { Sized bytes.now found }
    ensures value { result ≡ unpacked found values.old }
    ensures values_after { values.new ≡ unpacks bytes.now found values.old }
{
    let Checked { kind, n, m, ms } = found;
    let counts = Counts { n, m, ms };
    let count = record_fields::value_count(kind, counts);
    if values.len() < count {
        return refused(7, count);
    }
    record_values::read_list(bytes, kind, counts, values);
    let (n, m) = if kind == 1 { (n, m) } else { (0, 0) };
    Reading {
        number: 0,
        place: 0,
        kind,
        n,
        m,
        count,
    }
}

// ---- the two readers

// Reads a loop record: the first places of the list hold its rows afterwards.
pub fn read_loop(bytes: &[u8], values: &mut [i64]) -> Reading
    ensures value { result ≡ reads (loop_reader bytes.now values.old) }
    ensures values_after { values.new ≡ fills (loop_reader bytes.now values.old) values.old }
{
    match record_check::check_loop(bytes) {
        Ok(found) => unpack(bytes, found, values),
        Err(fault) => refused(fault.number, fault.place),
    }
}

// Reads a certificate record for a loop over n variables with m rows.
pub fn read_certificate(bytes: &[u8], n: usize, m: usize, values: &mut [i64]) -> Reading
    ensures value { result ≡ reads (certificate_reader bytes.now n m values.old) }
    ensures values_after { values.new ≡ fills (certificate_reader bytes.now n m values.old) values.old }
{
    let wanted = Wanted {
        ranking: true,
        exclusion: true,
        lasso: true,
    };
    match record_check::check_certificate(bytes, n, m, wanted) {
        Ok(found) => unpack(bytes, found, values),
        Err(fault) => refused(fault.number, fault.place),
    }
}
