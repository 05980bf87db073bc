// A ranking over a loop with one row added at the end (01, "Lasso"): the loop's totals, and the added row's terms. The row is -s·x <=
// right: minus the entries that lie from a place on, and a right side, which comes as a value (s0 of a lasso).
#![tactic(auto)]

ghost use Rattle.std.specs.Prelude.{◌≡◌, ◌+◌, ◌*◌, ◌≤◌, ◌<◌, pos, nat_abs, ◌+ℤ◌, ◌-ℤ◌, ◌*ℤ◌, length};
ghost use Rattle.judge_sums.specs.Places.{AllModest};
ghost use Rattle.judge_sums.specs.Running.{CanGrow, Modest};
ghost use Rattle.judge_ranking.specs.RankedBy.{RankingBy};
ghost use Rattle.judge_ranking.specs.RankingHeld.{ranking_held};
ghost use Rattle.judge_longer.specs.LongerHeld.{RowTaken, longer_of};

use judge_ranking::{Lifted, Ranked, Totals};
use judge_sums::{Multipliers, Rows};
use refusal::Fault;
use whole::Total;

// A total less a multiplier times an entry: one row more, which is minus that entry.
fn less_times(total: i64, k: usize, z: i64) -> i64
    requires { Modest total × (k < 65536) × (nat_abs z ≤ 32768) }
    ensures { (result ≡ total -ℤ pos k *ℤ z) × (nat_abs result ≤ nat_abs total + 2147450880) }
{
    let sum = Total { sum: total };
    let less = sum.plus(k as i64, -z);
    less.sum
}

// The added row, whose entries are minus those from a place on: each of the first n totals less the row's multiplier times its entry.
fn take_row(sums: &mut [i64], n: usize, multiplier: usize, certificate: &[u8], s: usize)
    requires { (n ≤ length sums.old) × AllModest n sums.old × (multiplier < 65536) × (s < 65536) × (n ≤ 16)
        × (s + 2 * n ≤ length certificate.now) }
    ensures { RowTaken multiplier certificate.now s n sums.old sums.new }
{
    for j in 0..n {
        sums[j] = less_times(sums[j], multiplier, endian::i16_at(certificate, s + 2 * j));
    }
}

// A total and a multiplier times a right side: one row more.
fn and_times(total: i64, k: usize, z: i64) -> i64
    requires { (nat_abs total ≤ 9147797156659200) × (k < 65536) × (nat_abs z ≤ 2147483648) }
    ensures { (result ≡ total +ℤ pos k *ℤ z) × CanGrow result }
{
    let sum = Total { sum: total };
    let more = sum.plus(k as i64, z);
    more.sum
}

// The four conditions over the loop with the added row -s·x <= right: the loop's totals in one visit of each row, the added row's terms,
// and what they tell. Where all hold the rank is put. Put in place where it is called it reads no struct from memory.
#[inline(always)]
pub fn longer_ranking(
    rows: Rows,
    certificate: &[u8],
    place: usize,
    s: usize,
    right: i64,
    rank: &mut [i64],
) -> Result<Ranked, Fault>
    requires { (rows.count ≤ 64) × (rows.n ≤ 16) × (place < 65536) × (s < 65536)
        × (place + 4 * (rows.count + 1) ≤ length certificate.now) × (s + 2 * rows.n ≤ length certificate.now)
        × (nat_abs right ≤ 2147483648) × (rows.n ≤ length rank.old) }
    ensures { RankingBy result (longer_of rows.entry certificate.now s right)
        (ranking_held certificate.now place (rows.entry.count + 1)) rank.old rank.new }
{
    let count = rows.count + 1;
    let under_y = Multipliers {
        bytes: certificate,
        place,
        count,
    };
    let under_z = Multipliers {
        bytes: certificate,
        place: place + 2 * count,
        count,
    };
    let y_last = under_y.at(rows.count);
    let z_last = under_z.at(rows.count);
    let mut ys = [0i64; 32];
    let mut zs = [0i64; 32];
    let beside = judge_sums::add_rows(&mut ys, &mut zs, rows, under_y, under_z);
    take_row(&mut ys, rows.n, y_last, certificate, s);
    take_row(&mut zs, rows.n, z_last, certificate, s);
    let yb = and_times(beside.y.right, y_last, right);
    let zb = and_times(beside.z.right, z_last, right);
    let y = Lifted {
        sums: &ys,
        n: rows.n,
        lift: beside.y.lift,
    };
    let z = Lifted {
        sums: &zs,
        n: rows.n,
        lift: beside.z.lift,
    };
    Totals { y, z }.ranked(yb, zb, rank)
}
