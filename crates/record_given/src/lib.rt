// Whether a kind, counts and a list of values make a record: 01's order for a writing, up to the room. What is given are the record's
// counts: n and m as they came, and a lasso's ms, or 0 for any other kind.
#![tactic(auto)]

ghost use Rattle.std.specs.Prelude.{◌≡◌, true, false, List, [], ℤ};
ghost use Rattle.record.specs.Layouts.{is_loop, is_lasso};
ghost use Rattle.record.specs.Wants.{kinds_written};
ghost use Rattle.record.specs.Writers.{Writer, kind as pair_kind, writer};
ghost use Rattle.record_given.specs.Settled.{counted, settled};

use record::Counts;
use refusal::{Fault, refused};

// ---- the counts of each kind

// n and m stand in a loop's body.
fn loop_counts(n: usize, m: usize) -> Result<Counts, Fault>
    ensures { (zs : List ℤ) → result ≡ counted (writer 1 n m zs []) }
{
    if !record_faults::variables_fit(n) {
        return refused(5, 6);
    }
    if !record_faults::rows_fit(m) {
        return refused(5, 8);
    }
    Ok(Counts { n, m, ms: 0 })
}

// A certificate with no count in its body.
fn plain_counts(n: usize, m: usize) -> Result<Counts, Fault>
    ensures { (w : Writer) → w.n ≡ n → w.m ≡ m → kinds_written (pair_kind w) ≡ true → is_loop (pair_kind w) ≡ false → is_lasso (pair_kind w) ≡ false → result ≡ counted w }
{
    if record_faults::arguments_fit(n, m) {
        Ok(Counts { n, m, ms: 0 })
    } else {
        refused(5, 0)
    }
}

// ms is the first of a lasso's values.
fn lasso_counts(n: usize, m: usize, values: &[i64]) -> Result<Counts, Fault>
    ensures { result ≡ counted (writer 4 n m values.now []) }
{
    if !record_faults::arguments_fit(n, m) {
        return refused(5, 0);
    }
    if values.is_empty() {
        return refused(12, 1);
    }
    if !record_list_faults::between(values[0], 0, 64) {
        return refused(5, 6);
    }
    Ok(Counts {
        n,
        m,
        ms: values[0] as usize,
    })
}

// The kind number decides, and any other kind is refused.
fn counts(kind: usize, n: usize, m: usize, values: &[i64]) -> Result<Counts, Fault>
    ensures { result ≡ counted (writer kind n m values.now []) }
{
    match kind {
        1 => loop_counts(n, m),
        2 | 3 => plain_counts(n, m),
        4 => lasso_counts(n, m, values),
        _ => refused(4, 4),
    }
}

// ---- the list

// All that a writing tests before the room.
pub fn settle(kind: usize, n: usize, m: usize, values: &[i64]) -> Result<Counts, Fault>
    ensures { result ≡ settled (writer kind n m values.now []) }
{
    let counts = counts(kind, n, m, values)?;
    let count = record_fields::value_count(kind, counts);
    if values.len() != count {
        return refused(12, count);
    }
    record_list_faults::values_fault(kind, counts, values)?;
    Ok(counts)
}
