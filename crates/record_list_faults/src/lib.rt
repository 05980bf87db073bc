// Where the values of a list are out of range, as a writer tests them: the parts of a body, from a list. The first value out of range is
// told at its place in the record that would be written.
#![tactic(auto)]

ghost use Rattle.std.specs.Prelude.{◌+◌, ◌≤◌, ◌≡◌, length};
ghost use Rattle.refusal.specs.Faults.{result_of};
ghost use Rattle.record.specs.Fields.{widths};
ghost use Rattle.record.specs.Layouts.{kind_of, length_of, ahead, listed};
ghost use Rattle.record.specs.Ranges.{within};
ghost use Rattle.record_fields.specs.Runs.{value_count, list_told};

mod in_list;

use in_list::InList;
use record::Counts;
use record_faults::{
    Multiplier, Numbers, RowCount, Source, exclusion_fault, lasso_fault, rows_fault,
};
use refusal::Fault;

// z is in a range (of a usize: `record_faults::between`, which says why there are two).
pub fn between(z: i64, least: i64, most: i64) -> bool
    ensures { result ≡ within (record { least = least; most = most }) z }
{
    (least..=most).contains(&z)
}

// The list of a record: the kind number decides its fields.
fn listed_fault<S: Source>(source: S, kind: usize, counts: Counts) -> Result<S, Fault>
    requires { S.has source (listed (kind_of kind) counts) }
    ensures { result ≡ S.answer source (listed (kind_of kind) counts) }
{
    match kind {
        1 => rows_fault(source, counts.n, counts.m),
        2 => source.run_fault::<Multiplier>(2 * counts.m),
        3 => exclusion_fault(source, counts.n),
        4 => lasso_fault(
            source.field_fault::<RowCount>()?,
            counts.n,
            counts.m,
            counts.ms,
        ),
        _ => Ok(source),
    }
}

// Where the record would have the first value.
fn first_place(kind: usize) -> usize
    ensures { result ≡ 6 + widths (ahead (kind_of kind)) }
{
    if kind == 1 { 10 } else { 6 }
}

// The values of a record of a kind.
pub fn values_fault(kind: usize, counts: Counts, values: &[i64]) -> Result<(), Fault>
    requires values_len { length values.now ≡ value_count (kind_of kind) counts }
    requires ms_bound { 4 + length_of (kind_of kind) counts ≤ 65536 }
    ensures { result ≡ result_of (list_told (listed (kind_of kind) counts) values.now 0 (6 + widths (ahead (kind_of kind)))) tt }
{
    let list = InList {
        values,
        index: 0,
        place: first_place(kind),
    };
    listed_fault(list, kind, counts)?;
    Ok(())
}
