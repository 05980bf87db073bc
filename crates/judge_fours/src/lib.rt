// The totals of `judge_sums::add_rows`, for sixteen rows or more: where four rows one after another have weight they are added at once, so
// that a column's totals are fetched and put back once for the four. A row without weight costs the reading of its two multipliers and no
// more (`docs/PERFORMANCE.md`, "A ranking's totals"). What is done with four rows takes the place of the first of them.
#![tactic(auto)]

ghost use Rattle.std.specs.Prelude.{◌+◌, ◌*◌, ◌≤◌, ◌<◌, true, ◌≡◌, length, ltb};
ghost use Rattle.endian.specs.Numbers.{little_at};
ghost use Rattle.judge_sums.specs.Places.{RestStays, AllModest, AllNone, most_entry, most_right};
ghost use Rattle.judge_sums.specs.Running.{Modest};
ghost use Rattle.judge_sums.specs.Terms.{SumsUnder, BesideUnder, TotalsUnder};
ghost use Rattle.judge_fours.specs.Fours.{FourAt, LiftsFour, FourAdded, SidedFour, FourFit};

mod four;

use four::Four;
use judge_sums::{Beside, Besides, Multipliers, Rows};

// Those of row i and the three after it.
fn four_at(multipliers: Multipliers, i: usize) -> Four
    requires { i + 4 ≤ multipliers.count }
    ensures { FourAt multipliers.entry.bytes.now (multipliers.entry.place + 2 * i) result }
{
    Four {
        first: multipliers.at(i),
        second: multipliers.at(i + 1),
        third: multipliers.at(i + 2),
        fourth: multipliers.at(i + 3),
    }
}

// A total and four terms more: the multipliers times the lifted entries that stand `stride` apart from a place on.
fn add_entries(sum: i64, four: Four, rows: &[u8], place: usize, stride: usize) -> i64
    requires { Modest sum × (place + 3 * stride + 2 ≤ length rows.now) }
    ensures { LiftsFour four rows.now place stride sum result }
{
    let one = judge_sums::add_lifted(sum, four.first, rows, place);
    let two = judge_sums::add_lifted(one, four.second, rows, place + stride);
    let three = judge_sums::add_lifted(two, four.third, rows, place + 2 * stride);
    judge_sums::add_lifted(three, four.fourth, rows, place + 3 * stride)
}

// Four rows more for two lists of totals.
fn add_four(ys: &mut [i64], zs: &mut [i64], y: Four, z: Four, rows: &[u8], row: usize, n: usize)
    requires { (2 * n ≤ length ys.old) × (2 * n ≤ length zs.old) × AllModest (2 * n) ys.old × AllModest (2 * n) zs.old
        × (row + 4 * (4 * n + 4) ≤ length rows.now) × (n < 16384) }
    ensures { FourAdded y rows.now row n (2 * n) ys.old ys.new
        × FourAdded z rows.now row n (2 * n) zs.old zs.new }
{
    let stride = 4 * n + 4;
    let width = 2 * n;
    for k in 0..width {
        ys[k] = add_entries(ys[k], y, rows, row + 2 * k, stride);
        zs[k] = add_entries(zs[k], z, rows, row + 2 * k, stride);
    }
}

// The same for what stands beside the columns: the right sides stand `stride` apart from a place on.
fn beside_four(beside: Beside, four: Four, rows: &[u8], place: usize, stride: usize) -> Beside
    requires { FourFit most_entry beside.lift × FourFit most_right beside.right
        × (place + 3 * stride + 4 ≤ length rows.now) }
    ensures { SidedFour four rows.now place stride
        beside.lift beside.right result.lift result.right }
{
    let one = beside.visit(four.first, rows, place);
    let two = one.visit(four.second, rows, place + stride);
    let three = two.visit(four.third, rows, place + 2 * stride);
    three.visit(four.fourth, rows, place + 3 * stride)
}

// ---- the rows in turn

// Whether row i has weight.
fn weighs(y: Multipliers, z: Multipliers, i: usize) -> bool
    requires { (i < y.count) × (i < z.count) }
    ensures { result ≡ ltb 0 (little_at 2 y.entry.bytes.now (y.entry.place + 2 * i) + little_at 2 z.entry.bytes.now (z.entry.place + 2 * i)) }
{
    0 < y.at(i) + z.at(i)
}

// Whether four of `count` rows are left from row i on, of which the last three have weight too. Nothing is promised of weight: one by one or four
// at once, rows make the same totals.
fn four_weigh(y: Multipliers, z: Multipliers, i: usize, count: usize) -> bool
    requires { (i < count) × (count ≤ y.count) × (count ≤ z.count) }
    ensures { result ≡ true → i + 4 ≤ count }
{
    4 <= count - i && weighs(y, z, i + 1) && weighs(y, z, i + 2) && weighs(y, z, i + 3)
}

// Four rows more.
fn take_four(
    ys: &mut [i64],
    zs: &mut [i64],
    beside: Besides,
    y: Four,
    z: Four,
    rows: &[u8],
    row: usize,
    n: usize,
) -> Besides
    requires { (2 * n ≤ length ys.old) × (2 * n ≤ length zs.old) × AllModest (2 * n) ys.old × AllModest (2 * n) zs.old
        × FourFit most_entry beside.y.lift × FourFit most_right beside.y.right × FourFit most_entry beside.z.lift × FourFit most_right beside.z.right
        × (row + 4 * (4 * n + 4) ≤ length rows.now) × (n < 16384) }
    ensures { FourAdded y rows.now row n (2 * n) ys.old ys.new
        × FourAdded z rows.now row n (2 * n) zs.old zs.new
        × SidedFour y rows.now (row + 4 * n) (4 * n + 4) beside.y.lift beside.y.right result.y.lift result.y.right
        × SidedFour z rows.now (row + 4 * n) (4 * n + 4) beside.z.lift beside.z.right result.z.lift result.z.right }
{
    add_four(ys, zs, y, z, rows, row, n);
    let right = row + 4 * n;
    let stride = 4 * n + 4;
    Besides {
        y: beside_four(beside.y, y, rows, right, stride),
        z: beside_four(beside.z, z, rows, right, stride),
    }
}

// How many rows were taken, and what stands beside the columns then.
#[derive(Clone, Copy)]
struct Taken {
    rows: usize,
    beside: Besides,
}

// Takes row i, or four rows from it on.
fn take_rows(
    ys: &mut [i64],
    zs: &mut [i64],
    beside: Besides,
    rows: Rows,
    y: Multipliers,
    z: Multipliers,
    i: usize,
) -> Taken
    requires { (2 * rows.n ≤ length ys.old) × (2 * rows.n ≤ length zs.old) × (rows.count ≤ y.count) × (rows.count ≤ z.count) × (i < rows.count)
        × TotalsUnder y rows i ys.old beside.y.lift beside.y.right
        × TotalsUnder z rows i zs.old beside.z.lift beside.z.right }
    ensures { (0 < result.rows) × (i + result.rows ≤ rows.entry.count)
        × RestStays (2 * rows.entry.n) ys.old ys.new × RestStays (2 * rows.entry.n) zs.old zs.new
        × TotalsUnder y.entry rows.entry (i + result.rows) ys.new result.beside.y.lift result.beside.y.right
        × TotalsUnder z.entry rows.entry (i + result.rows) zs.new result.beside.z.lift result.beside.z.right }
{
    let row = rows.place_of(i);
    let under_y = y.at(i);
    let under_z = z.at(i);
    if under_y + under_z == 0 {
        return Taken { rows: 1, beside };
    }
    if four_weigh(y, z, i, rows.count) {
        let four_y = four_at(y, i);
        let four_z = four_at(z, i);
        return Taken {
            rows: 4,
            beside: take_four(ys, zs, beside, four_y, four_z, rows.bytes, row, rows.n),
        };
    }
    Taken {
        rows: 1,
        beside: judge_sums::take_row(ys, zs, beside, under_y, under_z, rows.bytes, row, rows.n),
    }
}

// The totals under two lists of multipliers, as `judge_sums::add_rows` makes them. Fewer than sixteen rows are left to it: looking for four costs
// there what they save.
pub fn add_rows(
    ys: &mut [i64],
    zs: &mut [i64],
    rows: Rows,
    y: Multipliers,
    z: Multipliers,
) -> Besides
    requires { (2 * rows.n ≤ length ys.old) × (2 * rows.n ≤ length zs.old) × AllNone (2 * rows.n) ys.old × AllNone (2 * rows.n) zs.old
        × (rows.count ≤ y.count) × (rows.count ≤ z.count) }
    ensures { SumsUnder y.entry rows.entry rows.entry.count ys.new
        × SumsUnder z.entry rows.entry rows.entry.count zs.new
        × RestStays (2 * rows.entry.n) ys.old ys.new × RestStays (2 * rows.entry.n) zs.old zs.new
        × BesideUnder y.entry rows.entry rows.entry.count result.y.lift result.y.right
        × BesideUnder z.entry rows.entry rows.entry.count result.z.lift result.z.right }
{
    if rows.count < 16 {
        return judge_sums::add_rows(ys, zs, rows, y, z);
    }
    let mut beside = Besides::new();
    // goes on by one row or by four, so it is no `for`
    let mut i = 0;
    while i < rows.count {
        let taken = take_rows(ys, zs, beside, rows, y, z, i);
        beside = taken.beside;
        i += taken.rows;
    }
    beside
}
