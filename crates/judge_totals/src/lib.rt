// The totals of all columns under one list of multipliers or under two, with what they come to beside the columns. Each row is visited once,
// its entries several at a time, and for two lists its entries are read once for both; a multiplier of 0 costs its reading. As in `judge_sums`,
// the walk carries the place of a row with it, and what it does with one row takes that.
#![tactic(auto)]

ghost use Rattle.std.specs.Prelude.{◌+◌, ◌*◌, ◌≤◌, ◌<◌, length};
ghost use Rattle.judge_sums.specs.Places.{RowAdded, AllGrow, AllNone, Sided};
ghost use Rattle.judge_sums.specs.Running.{CanGrow};
ghost use Rattle.judge_sums.specs.Terms.{TotalsUnder};

use judge_sums::{Beside, Besides, Multipliers, Rows};

// One row more for a list of totals.
fn add_row(sums: &mut [i64], multiplier: usize, rows: &[u8], row: usize, width: usize)
    requires { (width ≤ length sums.old) × AllGrow width sums.old × (multiplier < 65536) × (row + 2 * width ≤ length rows.now) }
    ensures { RowAdded multiplier rows.now row width sums.old sums.new }
{
    for k in 0..width {
        sums[k] = judge_sums::add_lifted(sums[k], multiplier, rows, row + 2 * k);
    }
}

// One row more for all totals; a row without weight is not read.
fn visit(
    sums: &mut [i64],
    beside: Beside,
    multiplier: usize,
    rows: &[u8],
    row: usize,
    n: usize,
) -> Beside
    requires { (2 * n ≤ length sums.old) × AllGrow (2 * n) sums.old × CanGrow beside.lift × CanGrow beside.right
        × (multiplier < 65536) × (row + (4 * n + 4) ≤ length rows.now) × (n < 16384) }
    ensures { RowAdded multiplier rows.now row (2 * n) sums.old sums.new
        × Sided multiplier rows.now (row + 4 * n) beside.lift beside.right result.lift result.right }
{
    if multiplier == 0 {
        return beside;
    }
    add_row(sums, multiplier, rows, row, 2 * n);
    beside.visit(multiplier, rows, row + 4 * n)
}

// The same under two lists. Where one gives the row no weight, only the other takes it. For a list of lists there would be a loop of two turns at
// most within the loop over rows, and rows with weight under both would still be taken in one visit: no plainer.
fn visit_two(
    ys: &mut [i64],
    zs: &mut [i64],
    beside: Besides,
    y: usize,
    z: usize,
    rows: &[u8],
    row: usize,
    n: usize,
) -> Besides
    requires { (2 * n ≤ length ys.old) × (2 * n ≤ length zs.old) × AllGrow (2 * n) ys.old × AllGrow (2 * n) zs.old
        × CanGrow beside.y.lift × CanGrow beside.y.right × CanGrow beside.z.lift × CanGrow beside.z.right
        × (y < 65536) × (z < 65536) × (row + (4 * n + 4) ≤ length rows.now) × (n < 16384) }
    ensures { RowAdded y rows.now row (2 * n) ys.old ys.new
        × RowAdded z rows.now row (2 * n) zs.old zs.new
        × Sided y rows.now (row + 4 * n) beside.y.lift beside.y.right result.y.lift result.y.right
        × Sided z rows.now (row + 4 * n) beside.z.lift beside.z.right result.z.lift result.z.right }
{
    if y == 0 {
        return Besides {
            z: visit(zs, beside.z, z, rows, row, n),
            ..beside
        };
    }
    if z == 0 {
        return Besides {
            y: visit(ys, beside.y, y, rows, row, n),
            ..beside
        };
    }
    judge_sums::take_row(ys, zs, beside, y, z, rows, row, n)
}

// All rows, into a list of totals that starts as zeros.
pub fn sum_rows(sums: &mut [i64], rows: Rows, multipliers: Multipliers) -> Beside
    requires { (2 * rows.n ≤ length sums.old) × AllNone (2 * rows.n) sums.old × (rows.count ≤ multipliers.count) }
    ensures { TotalsUnder multipliers.entry rows.entry rows.entry.count sums.new result.lift result.right }
{
    let stride = rows.stride();
    let mut beside = Beside::new();
    let mut at = rows.start;
    for i in 0..rows.count {
        beside = visit(sums, beside, multipliers.at(i), rows.bytes, at, rows.n);
        at += stride;
    }
    beside
}

// The same under two lists of multipliers, each into its own list of totals; beside `sum_rows` for the reasons of `visit_two`.
pub fn sum_two(
    ys: &mut [i64],
    zs: &mut [i64],
    rows: Rows,
    y: Multipliers,
    z: Multipliers,
) -> Besides
    requires { (2 * rows.n ≤ length ys.old) × (2 * rows.n ≤ length zs.old) × AllNone (2 * rows.n) ys.old × AllNone (2 * rows.n) zs.old
        × (rows.count ≤ y.count) × (rows.count ≤ z.count) }
    ensures { TotalsUnder y.entry rows.entry rows.entry.count ys.new result.y.lift result.y.right
        × TotalsUnder z.entry rows.entry rows.entry.count zs.new result.z.lift result.z.right }
{
    let stride = rows.stride();
    let mut beside = Besides::new();
    let mut at = rows.start;
    for i in 0..rows.count {
        beside = visit_two(ys, zs, beside, y.at(i), z.at(i), rows.bytes, at, rows.n);
        at += stride;
    }
    beside
}
