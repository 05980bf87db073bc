// The list of values of a record, read from its bytes into a list that is long enough: runs of numbers of one form, parts of a body, a
// whole list. `record_fill` writes the same parts: what is done with a run, which list is lent and every clause differ, so they are no one set.
#![tactic(auto, unfolding(record::specs::Fields::width, record::specs::Layouts::kind_of, record::specs::Layouts::length_of, record_fields::specs::Runs::value_count))]

ghost use Rattle.std.specs.Prelude.{◌+◌, ◌*◌, ◌≤◌, ◌≡◌, [], ◌∷◌, ◌++◌, length, drop, replicate};
ghost use Rattle.std.proofs.lemmas.List.Edits.{sets};
ghost use Rattle.record.specs.Fields.{values as held};
ghost use Rattle.record.specs.Layouts.{lasso, kind_of, scale, direction, rows_of, length_of, listed};
ghost use Rattle.record_fields.specs.Runs.{numbers, linear, value_count};
ghost use Rattle.record_values.specs.ListsHeld.{list_of};

use record::Counts;
use record_fields::Number;

// The numbers of one form from a place of the bytes on, into the list from an index on.
fn read_run<N: Number>(bytes: &[u8], place: usize, count: usize, values: &mut [i64], index: usize)
    requires { (place + count * N.WIDTH ≤ length bytes.now) × (index + count ≤ length values.old) }
    ensures { values.new ≡ sets values.old index (numbers N.form count (drop place bytes.now)) }
{
    for i in 0..count {
        values[index + i] = N::number_at(bytes, place + i * N::WIDTH);
    }
}

// ---- parts of a body

fn read_linear(bytes: &[u8], place: usize, count: usize, values: &mut [i64], index: usize)
    requires { (place + (2 * count + 4) ≤ length bytes.now) × (index + (count + 1) ≤ length values.old) }
    ensures { values.new ≡ sets values.old index (held (linear count) (drop place bytes.now)) }
{
    read_run::<i16>(bytes, place, count, values, index);
    read_run::<i32>(bytes, place + 2 * count, 1, values, index + count);
}

fn read_rows(bytes: &[u8], place: usize, n: usize, count: usize, values: &mut [i64], index: usize)
    requires { (place + count * (4 * n + 4) ≤ length bytes.now) × (index + count * (2 * n + 1) ≤ length values.old) }
    ensures { values.new ≡ sets values.old index (held (rows_of n count) (drop place bytes.now)) }
{
    let mut at = place;
    let mut i = index;
    for _ in 0..count {
        read_linear(bytes, at, 2 * n, values, i);
        at += 4 * n + 4;
        i += 2 * n + 1;
    }
}

fn read_exclusion(bytes: &[u8], n: usize, values: &mut [i64])
    requires { (8 + 12 * n ≤ length bytes.now) × (1 + 3 * n ≤ length values.old) }
    ensures { values.new ≡ sets values.old 0 (held ((scale ∷ []) ++ replicate (3 * n) direction) (drop 6 bytes.now)) }
{
    read_run::<u16>(bytes, 6, 1, values, 0);
    read_run::<i32>(bytes, 8, 3 * n, values, 1);
}

fn read_lasso(bytes: &[u8], counts: Counts, values: &mut [i64])
    requires { (4 + length_of lasso counts ≤ length bytes.now) × (value_count lasso counts ≤ length values.old) }
    ensures { values.new ≡ sets values.old 0 (held (listed lasso counts) (drop 6 bytes.now)) }
{
    let Counts { n, m, ms } = counts;
    let place = 8 + ms * (4 * n + 4);
    let index = 1 + ms * (2 * n + 1);
    read_run::<u16>(bytes, 6, 1, values, 0);
    read_rows(bytes, 8, n, ms, values, 1);
    read_linear(bytes, place, n, values, index);
    read_run::<u16>(
        bytes,
        place + (2 * n + 4),
        ms + 3 * m + 5,
        values,
        index + (n + 1),
    );
}

// ---- a whole list

// The list of values of a record of a kind: the kind number decides its layout.
pub fn read_list(bytes: &[u8], kind: usize, counts: Counts, values: &mut [i64])
    requires bytes_len { length bytes.now ≡ 4 + length_of (kind_of kind) counts }
    requires ms_in_bounds { value_count (kind_of kind) counts ≤ length values.old }
    ensures { values.new ≡ sets values.old 0 (list_of bytes.now kind counts) }
{
    match kind {
        1 => read_rows(bytes, 10, counts.n, counts.m, values, 0),
        2 => read_run::<u16>(bytes, 6, 2 * counts.m, values, 0),
        3 => read_exclusion(bytes, counts.n, values),
        4 => read_lasso(bytes, counts, values),
        _ => (),
    }
}
