// The sums over rows of a judge, taken straight from the bytes of the records: nothing is unpacked.
// Each is a running sum (`Total`) that takes one row after another; totals that meet the same row
// share its visit. A ranking's totals of all columns lie side by side in lists, so that a row is
// added to several at once. The sums know rows and multipliers by their places alone, so they serve
// loop rows and stem rows and every kind of certificate. Every total comes with its size, so that a
// caller may add to it.
//
// `Rows` and `Multipliers` say where both lie. A walk over them carries the place of a row from one
// to the next, so what it does with one row takes bytes and places in them.
#![tactic(auto)]

ghost use Rattle.std.specs.Prelude.{◌+◌, ◌*◌, ◌≤◌, ◌<◌, ◌≡◌, pos, ◌*ℤ◌, length};
ghost use Rattle.judge_sums.specs.Places.{entry_at, right_at, Lifts, RowAdded, RestStays, AllGrow, AllNone, Visited, Sided, most_entry, most_right};
ghost use Rattle.judge_sums.specs.Terms.{right_terms, ColumnUnder, SumsUnder, BesideUnder};
ghost use Rattle.judge_sums.specs.Running.{CanGrow, Adds, SumOf};

mod rows;

pub use rows::{Multipliers, Rows};
use whole::Total;

// A total and one term more: the multiplier times the entry at a place. Each term uses up room to
// grow, so that a total has it is a clause wherever it is added to, and part of no type.
fn add_entry(total: Total, multiplier: usize, rows: &[u8], place: usize) -> Total
    requires { CanGrow total.sum × (multiplier < 65536) × (place + 2 ≤ length rows.now) }
    ensures { Adds most_entry (pos multiplier *ℤ entry_at rows.now place) total.sum result.sum }
{
    total.plus(multiplier as i64, endian::i16_at(rows, place))
}

// The same with a right side.
pub fn add_right(total: Total, multiplier: usize, rows: &[u8], place: usize) -> Total
    requires { CanGrow total.sum × (multiplier < 65536) × (place + 4 ≤ length rows.now) }
    ensures { Adds most_right (pos multiplier *ℤ right_at rows.now place) total.sum result.sum }
{
    total.plus(multiplier as i64, endian::i32_at(rows, place))
}

// One column's totals under one list of multipliers: over A, and over A'.
#[derive(Clone, Copy)]
pub struct Column {
    pub now: Total,
    pub next: Total,
}

impl Column {
    fn new() -> Column
        ensures { (result.now.sum ≡ pos 0) × (result.next.sum ≡ pos 0) }
    {
        Column {
            now: Total::new(),
            next: Total::new(),
        }
    }

    // One row more: its entries at two places, each times the multiplier. A row without weight is
    // not read.
    fn visit(self, multiplier: usize, rows: &[u8], first: usize, second: usize) -> Column
        requires { CanGrow self.now.sum × CanGrow self.next.sum × (multiplier < 65536)
            × (first + 2 ≤ length rows.now) × (second + 2 ≤ length rows.now) }
        ensures { Visited multiplier rows.now first second self.now.sum self.next.sum result.now.sum result.next.sum }
    {
        if multiplier == 0 {
            return self;
        }
        Column {
            now: add_entry(self.now, multiplier, rows, first),
            next: add_entry(self.next, multiplier, rows, second),
        }
    }
}

// The totals of column j, over A and over A', under one list of multipliers.
pub fn column_of(rows: Rows, j: usize, multipliers: Multipliers) -> Column
    requires { (j < rows.n) × (rows.count ≤ multipliers.count) }
    ensures { ColumnUnder multipliers.entry rows.entry j rows.entry.count result.now.sum result.next.sum }
{
    let stride = rows.stride();
    let first = 2 * j;
    let second = 2 * rows.n + 2 * j;
    let mut column = Column::new();
    let mut at = rows.start;
    for i in 0..rows.count {
        column = column.visit(multipliers.at(i), rows.bytes, at + first, at + second);
        at += stride;
    }
    column
}

// A total and one term more: the multiplier times the lifted entry at a place.
pub fn add_lifted(sum: i64, multiplier: usize, rows: &[u8], place: usize) -> i64
    requires { CanGrow sum × (multiplier < 65536) × (place + 2 ≤ length rows.now) }
    ensures { Lifts multiplier (entry_at rows.now place) sum result }
{
    let total = Total { sum };
    total
        .plus(multiplier as i64, endian::lifted_at(rows, place))
        .sum
}

// One row more for two lists of totals: the row's entries are read in one visit, several at once,
// and not at all where neither list gives the row weight.
pub fn add_row(
    ys: &mut [i64],
    zs: &mut [i64],
    y: usize,
    z: usize,
    rows: &[u8],
    row: usize,
    width: usize,
)
    requires { (width ≤ length ys.old) × (width ≤ length zs.old) × AllGrow width ys.old × AllGrow width zs.old
        × (y < 65536) × (z < 65536) × (row + 2 * width ≤ length rows.now) }
    ensures { RowAdded y rows.now row width ys.old ys.new
        × RowAdded z rows.now row width zs.old zs.new }
{
    if y + z == 0 {
        return;
    }
    for k in 0..width {
        ys[k] = add_lifted(ys[k], y, rows, row + 2 * k);
        zs[k] = add_lifted(zs[k], z, rows, row + 2 * k);
    }
}

// What one list of multipliers comes to beside the columns: the lifts, which each column's total has
// too much, and the right sides.
#[derive(Clone, Copy)]
pub struct Beside {
    pub lift: i64,
    pub right: i64,
}

impl Beside {
    pub fn new() -> Beside
        ensures { (result.lift ≡ pos 0) × (result.right ≡ pos 0) }
    {
        Beside { lift: 0, right: 0 }
    }

    // One row more: its lift, and its right side at a place, each times the multiplier.
    pub fn visit(self, multiplier: usize, rows: &[u8], place: usize) -> Beside
        requires { CanGrow self.lift × CanGrow self.right × (multiplier < 65536) × (place + 4 ≤ length rows.now) }
        ensures { Sided multiplier rows.now place self.lift self.right result.lift result.right }
    {
        let lift = Total { sum: self.lift };
        let right = Total { sum: self.right };
        Beside {
            lift: lift.plus(multiplier as i64, 32768).sum,
            right: add_right(right, multiplier, rows, place).sum,
        }
    }
}

// The same under two lists of multipliers.
#[derive(Clone, Copy)]
pub struct Besides {
    pub y: Beside,
    pub z: Beside,
}

impl Besides {
    pub fn new() -> Besides
        ensures { (result.y.lift ≡ pos 0) × (result.y.right ≡ pos 0) × (result.z.lift ≡ pos 0) × (result.z.right ≡ pos 0) }
    {
        Besides {
            y: Beside::new(),
            z: Beside::new(),
        }
    }
}

// One row more for all totals under two lists of multipliers: for those of the columns, and for what they come to beside them.
pub fn take_row(
    ys: &mut [i64],
    zs: &mut [i64],
    beside: Besides,
    y: usize,
    z: usize,
    rows: &[u8],
    row: usize,
    n: usize,
) -> Besides
    requires { (2 * n ≤ length ys.old) × (2 * n ≤ length zs.old) × AllGrow (2 * n) ys.old × AllGrow (2 * n) zs.old
        × CanGrow beside.y.lift × CanGrow beside.y.right × CanGrow beside.z.lift × CanGrow beside.z.right
        × (y < 65536) × (z < 65536) × (row + (4 * n + 4) ≤ length rows.now) × (n < 16384) }
    ensures { RowAdded y rows.now row (2 * n) ys.old ys.new
        × RowAdded z rows.now row (2 * n) zs.old zs.new
        × Sided y rows.now (row + 4 * n) beside.y.lift beside.y.right result.y.lift result.y.right
        × Sided z rows.now (row + 4 * n) beside.z.lift beside.z.right result.z.lift result.z.right }
{
    add_row(ys, zs, y, z, rows, row, 2 * n);
    let right = row + 4 * n;
    Besides {
        y: beside.y.visit(y, rows, right),
        z: beside.z.visit(z, rows, right),
    }
}

// The totals under two lists of multipliers, in one visit of each row: of all columns, and what they
// come to beside them. The lists of totals start as zeros; every entry is lifted. Past the columns
// they stay.
pub fn add_rows(
    ys: &mut [i64],
    zs: &mut [i64],
    rows: Rows,
    y: Multipliers,
    z: Multipliers,
) -> Besides
    requires { (2 * rows.n ≤ length ys.old) × (2 * rows.n ≤ length zs.old) × AllNone (2 * rows.n) ys.old × AllNone (2 * rows.n) zs.old
        × (rows.count ≤ y.count) × (rows.count ≤ z.count) }
    ensures { SumsUnder y.entry rows.entry rows.entry.count ys.new
        × SumsUnder z.entry rows.entry rows.entry.count zs.new
        × RestStays (2 * rows.entry.n) ys.old ys.new × RestStays (2 * rows.entry.n) zs.old zs.new
        × BesideUnder y.entry rows.entry rows.entry.count result.y.lift result.y.right
        × BesideUnder z.entry rows.entry rows.entry.count result.z.lift result.z.right }
{
    let stride = rows.stride();
    let mut beside = Besides::new();
    let mut at = rows.start;
    for i in 0..rows.count {
        beside = take_row(ys, zs, beside, y.at(i), z.at(i), rows.bytes, at, rows.n);
        at += stride;
    }
    beside
}

// The total of the right sides under one list of multipliers.
pub fn right_of(rows: Rows, multipliers: Multipliers) -> Total
    requires { rows.count ≤ multipliers.count }
    ensures { SumOf rows.entry.count most_right (right_terms multipliers.entry rows.entry) result.sum }
{
    let stride = rows.stride();
    let right = 4 * rows.n;
    let mut total = Total::new();
    let mut at = rows.start;
    for i in 0..rows.count {
        total = add_right(total, multipliers.at(i), rows.bytes, at + right);
        at += stride;
    }
    total
}
