// Where the numbers of a body are out of range. A body is a handful of parts, each of a few runs of equal fields; the parts are the same
// for whatever source its numbers come from, which says how it tests a number and a run.
#![tactic(auto)]

ghost use Rattle.std.specs.Prelude.{◌+◌, ◌*◌, ◌≤◌, ◌≡◌, ◌&&◌, [], ◌++◌, ◌∷◌, pos, replicate};
ghost use Rattle.record.specs.Layouts.{multiplier, scale, direction, rows_of};
ghost use Rattle.record.specs.Ranges.{◌to◌, variables, rows, within};
ghost use Rattle.record_fields.specs.Runs.{linear, weights};

mod fields;
mod in_bytes;
mod source;

pub use fields::{BodyField, Direction, Entry, Multiplier, RightSide, RowCount, Scale};
pub use in_bytes::InBytes;
use refusal::Fault;
pub use source::{Numbers, Source, walk};

// ---- numbers

// x is in a range. Of an i64 it is `record_list_faults::between`: one function for both would ask for an order's laws in each contract, for a line
// of code.
pub fn between(x: usize, least: usize, most: usize) -> bool
    ensures { result ≡ within (least to most) (pos x) }
{
    (least..=most).contains(&x)
}

// n is a count of variables.
pub fn variables_fit(n: usize) -> bool
    ensures { result ≡ within variables (pos n) }
{
    between(n, 1, 16)
}

// m is a count of rows.
pub fn rows_fit(m: usize) -> bool
    ensures { result ≡ within rows (pos m) }
{
    between(m, 0, 64)
}

// n and m go with a certificate.
pub fn arguments_fit(n: usize, m: usize) -> bool
    ensures { result ≡ (within variables (pos n) && within rows (pos m)) }
{
    variables_fit(n) && rows_fit(m)
}

// ---- parts of a body

// Up to eight are walked at once: testing several at a time takes as long before the first is tested.
pub fn multipliers_fault<S: Source>(source: S, count: usize) -> Result<S, Fault>
    requires { S.has source (replicate count multiplier) }
    ensures { result ≡ S.answer source (replicate count multiplier) }
{
    if count <= 8 {
        walk::<S, Multiplier>(source, count)
    } else {
        source.run_fault::<Multiplier>(count)
    }
}

#[tactic(auto, unfolding(record_fields::specs::Runs::linear))]
pub fn linear_fault<S: Source>(source: S, count: usize) -> Result<S, Fault>
    requires { S.has source (linear count) }
    ensures { result ≡ S.answer source (linear count) }
{
    source.run_fault::<Entry>(count)?.field_fault::<RightSide>()
}

pub fn weights_fault<S: Source>(source: S, count: usize) -> Result<S, Fault>
    requires { S.has source (weights count) }
    ensures { result ≡ S.answer source (weights count) }
{
    multipliers_fault(source.field_fault::<Scale>()?, count)
}

// A row is a linear part.
pub fn rows_fault<S: Source>(source: S, n: usize, count: usize) -> Result<S, Fault>
    requires { S.has source (rows_of n count) }
    ensures { result ≡ S.answer source (rows_of n count) }
{
    let mut source = source;
    for _ in 0..count {
        source = linear_fault(source, 2 * n)?;
    }
    Ok(source)
}

pub fn exclusion_fault<S: Source>(source: S, n: usize) -> Result<S, Fault>
    requires { S.has source ((scale ∷ []) ++ replicate (3 * n) direction) }
    ensures { result ≡ S.answer source ((scale ∷ []) ++ replicate (3 * n) direction) }
{
    source.field_fault::<Scale>()?.run_fault::<Direction>(3 * n)
}

pub fn lasso_fault<S: Source>(source: S, n: usize, m: usize, ms: usize) -> Result<S, Fault>
    requires { S.has source (rows_of n ms ++ (linear n ++ (weights ms ++ weights (3 * m + 3)))) }
    ensures { result ≡ S.answer source (rows_of n ms ++ (linear n ++ (weights ms ++ weights (3 * m + 3)))) }
{
    let invariant = rows_fault(source, n, ms)?;
    let start = linear_fault(invariant, n)?;
    let kept = weights_fault(start, ms)?;
    weights_fault(kept, 3 * m + 3)
}
