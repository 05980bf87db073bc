// Filling a body: runs of values of one form, the parts of a body, and the body of each kind. Whoever calls has tested the values, and has room for them.
// `record_values` reads the same parts, and says why there are two sets.
#![tactic(auto, unfolding(record::specs::Fields::width, record::specs::Layouts::kind_of, record::specs::Layouts::length_of, record_fields::specs::Runs::value_count))]

ghost use Rattle.std.specs.Prelude.{◌+◌, ◌*◌, ◌≤◌, ◌≡◌, true, [], ◌∷◌, ◌++◌, length, drop, replicate};
ghost use Rattle.std.proofs.lemmas.List.Edits.{sets};
ghost use Rattle.endian.specs.Numbers.{digits};
ghost use Rattle.record.specs.Fields.{bytes_of, in_range};
ghost use Rattle.record.specs.Layouts.{lasso, kind_of, scale, direction, rows_of, length_of, listed};
ghost use Rattle.record_fields.specs.Runs.{linear, value_count, stores, all_held};
ghost use Rattle.record_fill.specs.Bodies.{body_bytes, Fitting};

use record::Counts;
use record_fields::Number;

// The values of a run of one form, from an index of the list on, into the body from a place on.
fn write_run<N: Number>(body: &mut [u8], place: usize, count: usize, values: &[i64], index: usize)
    requires there { index + count ≤ length values.now }
    requires room { place + count * N.WIDTH ≤ length body.old }
    requires held { all_held N.form count (drop index values.now) ≡ true }
    ensures { body.new ≡ sets body.old place (stores N.form count (drop index values.now)) }
{
    for i in 0..count {
        N::put(body, place + i * N::WIDTH, values[index + i]);
    }
}

// ---- parts of a body

fn write_linear(body: &mut [u8], place: usize, count: usize, values: &[i64], index: usize)
    requires there { index + (count + 1) ≤ length values.now }
    requires room { place + (2 * count + 4) ≤ length body.old }
    requires fit { in_range (linear count) (drop index values.now) ≡ true }
    ensures { body.new ≡ sets body.old place (bytes_of (linear count) (drop index values.now)) }
{
    write_run::<i16>(body, place, count, values, index);
    write_run::<i32>(body, place + 2 * count, 1, values, index + count);
}

fn write_rows(body: &mut [u8], place: usize, n: usize, count: usize, values: &[i64], index: usize)
    requires there { index + count * (2 * n + 1) ≤ length values.now }
    requires room { place + count * (4 * n + 4) ≤ length body.old }
    requires fit { in_range (rows_of n count) (drop index values.now) ≡ true }
    ensures { body.new ≡ sets body.old place (bytes_of (rows_of n count) (drop index values.now)) }
{
    let mut at = place;
    let mut i = index;
    for _ in 0..count {
        write_linear(body, at, 2 * n, values, i);
        at += 4 * n + 4;
        i += 2 * n + 1;
    }
}

fn write_exclusion(body: &mut [u8], n: usize, values: &[i64])
    requires there { 1 + 3 * n ≤ length values.now }
    requires room { 2 + 12 * n ≤ length body.old }
    requires fit { in_range ((scale ∷ []) ++ replicate (3 * n) direction) values.now ≡ true }
    ensures { body.new ≡ sets body.old 0 (bytes_of ((scale ∷ []) ++ replicate (3 * n) direction) values.now) }
{
    write_run::<u16>(body, 0, 1, values, 0);
    write_run::<i32>(body, 2, 3 * n, values, 1);
}

fn write_lasso(body: &mut [u8], counts: Counts, values: &[i64])
    requires there { value_count lasso counts ≤ length values.now }
    requires room { length_of lasso counts ≤ 2 + length body.old }
    requires fit { in_range (listed lasso counts) values.now ≡ true }
    ensures { body.new ≡ sets body.old 0 (bytes_of (listed lasso counts) values.now) }
{
    let Counts { n, m, ms } = counts;
    let place = 2 + ms * (4 * n + 4);
    let index = 1 + ms * (2 * n + 1);
    write_run::<u16>(body, 0, 1, values, 0);
    write_rows(body, 2, n, ms, values, 1);
    write_linear(body, place, n, values, index);
    write_run::<u16>(
        body,
        place + (2 * n + 4),
        ms + 3 * m + 5,
        values,
        index + (n + 1),
    );
}

// A loop's n and m, then its rows.
fn write_loop(body: &mut [u8], n: usize, m: usize, values: &[i64])
    requires counts { (n ≤ 16) × (m ≤ 64) }
    requires there { m * (2 * n + 1) ≤ length values.now }
    requires room { 4 + m * (4 * n + 4) ≤ length body.old }
    requires fit { in_range (rows_of n m) values.now ≡ true }
    ensures { body.new ≡ sets body.old 0 (digits 2 n ++ (digits 2 m ++ bytes_of (rows_of n m) values.now)) }
{
    endian::put_u16(body, 0, n);
    endian::put_u16(body, 2, m);
    write_rows(body, 4, n, m, values, 0);
}

// ---- a whole body

// The body of a record of a kind: the kind number decides its layout.
pub fn write_body(body: &mut [u8], kind: usize, counts: Counts, values: &[i64])
    requires fitting { Fitting kind counts values.now }
    requires ms_bound { length_of (kind_of kind) counts ≤ 2 + length body.old }
    ensures { body.new ≡ sets body.old 0 (body_bytes kind counts values.now) }
{
    match kind {
        1 => write_loop(body, counts.n, counts.m, values),
        2 => write_run::<u16>(body, 0, 2 * counts.m, values, 0),
        3 => write_exclusion(body, counts.n, values),
        4 => write_lasso(body, counts, values),
        _ => (),
    }
}
