// What a ranking's conditions tell (01, "Conditions": YA' = 0; (Y - Z)A = 0; Z(A + A') = 0; Zb < 0), from the bytes of sound records,
// and what it shows where they hold. All but the last three speak of totals alone, so they serve every ranking: that of kind 2, and one over
// a longer loop.
#![tactic(auto)]

ghost use Rattle.std.specs.Prelude.{List, ℤ, ◌≡◌, ◌+◌, ◌*◌, ◌≤◌, ◌<◌, nat_abs, neg_ℤ, length, drop, ◌++◌, MatchOption};
ghost use Rattle.refusal.specs.Faults.{result_of};
ghost use Rattle.whole.specs.Sums.{tabulate};
ghost use Rattle.judge_sums.specs.Places.{MultipliersIn, AllNone};
ghost use Rattle.judge_sums.specs.Terms.{TotalsUnder};
ghost use Rattle.judge_sums.specs.Running.{CanGrow};
ghost use Rattle.judge_conditions.specs.LoopHeld.{loop_of};
ghost use Rattle.judge_ranking.specs.RankedBy.{columns_told, totals_told, ranked_of, rank_put, RankingBy};
ghost use Rattle.judge_ranking.specs.LiftedTotals.{now_total, next_total, condition_holds, HoldBefore, conditions_tell, totals_tell};
ghost use Rattle.judge_ranking.specs.RankingHeld.{ranking_held};

mod lifted;

use judge_sums::{Besides, Multipliers, Rows};
pub use lifted::{Lifted, Totals};
use refusal::Fault;

// What a ranking shows where its conditions hold: start and fall.
#[derive(Clone, Copy, Debug, PartialEq, Eq)]
pub struct Ranked {
    pub start: i64,
    pub fall: i64,
}

// Whether the first three conditions hold at one column. Other judges' columns have other conditions, so each has a struct of its own.
#[derive(Clone, Copy)]
struct ColumnHolds {
    first: bool,
    second: bool,
    third: bool,
}

// Puts the rank, ZA', into the front of a list, out of the totals under Z.
fn put_rank(rank: &mut [i64], z: Lifted)
    requires { z.n ≤ length rank.old }
    ensures { rank.new ≡ tabulate z.entry.n (next_total z.entry) ++ drop z.entry.n rank.old }
{
    for j in 0..z.n {
        rank[j] = z.next(j);
    }
}

impl<'a> Totals<'a> {
    // The same at column j.
    fn column_holds(self, j: usize) -> ColumnHolds
        requires { j < self.y.n }
        ensures { (result.first ≡ condition_holds 21 self.entry j)
            × (result.second ≡ condition_holds 22 self.entry j)
            × (result.third ≡ condition_holds 23 self.entry j) }
    {
        let za = self.z.now(j);
        let ya = self.y.now(j);
        let za2 = self.z.next(j);
        ColumnHolds {
            first: self.y.next(j) == 0,
            second: ya == za,
            third: za + za2 == 0,
        }
    }

    // The first column at which one of the three fails, if there is one.
    fn first_fault(self) -> Option<usize>
        ensures { MatchOption result (HoldBefore self.entry.y.n self.entry)
            (λ j. (j ≤ self.entry.y.n) × HoldBefore j self.entry) }
    {
        for j in 0..self.y.n {
            let column = self.column_holds(j);
            if !column.first || !column.second || !column.third {
                return Some(j);
            }
        }
        None
    }

    // The first three conditions, each at all columns before the next, where they hold at the columns before one. The first column that
    // fails YA' = 0 ends the walk; the first that fail the other two are remembered.
    fn fault_from(self, from: usize) -> Result<(), Fault>
        requires { (from ≤ self.y.n) × HoldBefore from self }
        ensures { result ≡ result_of (conditions_tell self.entry) tt }
    {
        let mut second = None;
        let mut third = None;
        for j in from..self.y.n {
            let column = self.column_holds(j);
            if !column.first {
                return refusal::refused(21, j);
            }
            second = judge_conditions::remember(second, j, column.second);
            third = judge_conditions::remember(third, j, column.third);
        }
        if let Some(place) = second {
            return refusal::refused(22, place);
        }
        if let Some(place) = third {
            return refusal::refused(23, place);
        }
        Ok(())
    }

    // The first three conditions, each at all columns before the next. One walk suffices where all hold; where one fails, the walk that
    // tells which goes on from there.
    pub fn columns_fault(self) -> Result<(), Fault>
        ensures { result ≡ result_of (conditions_tell self.entry) tt }
    {
        match self.first_fault() {
            Some(from) => self.fault_from(from),
            None => Ok(()),
        }
    }

    // The four conditions, out of the totals of the columns and those over b. Where all hold the rank is put. It is put in place where it is
    // called, so that lists of totals stay with the function that made them.
    #[inline(always)]
    pub fn ranked(self, yb: i64, zb: i64, rank: &mut [i64]) -> Result<Ranked, Fault>
        requires { CanGrow yb × CanGrow zb × (self.z.n ≤ length rank.old) }
        ensures { (result ≡ ranked_of (totals_tell self.entry zb) (neg_ℤ yb) (neg_ℤ zb))
            × (rank.new ≡ rank_put (totals_tell self.entry zb) (tabulate self.entry.z.n (next_total self.entry.z)) rank.old) }
    {
        by_totals(self.columns_fault(), self.z, yb, zb, rank)
    }
}

// The four conditions, out of what the first three told, the totals under Z and those over b. Where all hold the rank is put.
#[inline(always)]
pub fn by_totals(
    told: Result<(), Fault>,
    z: Lifted,
    yb: i64,
    zb: i64,
    rank: &mut [i64],
) -> Result<Ranked, Fault>
    requires { CanGrow yb × CanGrow zb × (z.n ≤ length rank.old) }
    ensures { (ys : List ℤ) (ylift : ℤ) → told ≡ result_of (columns_told ys ylift z.entry.sums.now z.entry.lift z.entry.n) tt
        → (result ≡ ranked_of (totals_told ys ylift z.entry.sums.now z.entry.lift z.entry.n zb) (neg_ℤ yb) (neg_ℤ zb))
        × (rank.new ≡ rank_put (totals_told ys ylift z.entry.sums.now z.entry.lift z.entry.n zb)
        (tabulate z.entry.n (next_total z.entry)) rank.old) }
{
    told?;
    if 0 <= zb {
        return refusal::refused(24, 0);
    }
    put_rank(rank, z);
    Ok(Ranked {
        start: -yb,
        fall: -zb,
    })
}

// The totals of all rows in lists of WIDTH. Of many rows, four at once where they have weight (`judge_fours`), which does not pay in short
// lists.
fn add_rows<const WIDTH: usize>(
    ys: &mut [i64],
    zs: &mut [i64],
    rows: Rows,
    y: Multipliers,
    z: Multipliers,
) -> Besides
    requires { (2 * rows.n ≤ length ys.old) × (2 * rows.n ≤ length zs.old) × AllNone (2 * rows.n) ys.old × AllNone (2 * rows.n) zs.old
        × (rows.count ≤ y.count) × (rows.count ≤ z.count) }
    ensures { TotalsUnder y.entry rows.entry rows.entry.count ys.new result.y.lift result.y.right
        × TotalsUnder z.entry rows.entry rows.entry.count zs.new result.z.lift result.z.right }
{
    if WIDTH < 16 {
        judge_sums::add_rows(ys, zs, rows, y, z)
    } else {
        judge_fours::add_rows(ys, zs, rows, y, z)
    }
}

// The totals of a ranking in lists of WIDTH, in one visit of each row, and what they tell. Lists as short as can be are quickly cleared, and
// their loops unrolled (`docs/PERFORMANCE.md`, "A ranking's totals").
fn over<const WIDTH: usize>(
    rows: Rows,
    certificate: &[u8],
    rank: &mut [i64],
) -> Result<Ranked, Fault>
    requires { (2 * rows.n ≤ WIDTH) × (WIDTH ≤ 32) × (rows.count ≤ 64)
        × MultipliersIn certificate.now (6 + 2 * rows.count) rows.count × (rows.n ≤ length rank.old) }
    ensures { RankingBy result (loop_of rows.entry) (ranking_held certificate.now 6 rows.entry.count) rank.old rank.new }
{
    let under_y = Multipliers {
        bytes: certificate,
        place: 6,
        count: rows.count,
    };
    let under_z = Multipliers {
        bytes: certificate,
        place: 6 + 2 * rows.count,
        count: rows.count,
    };
    let mut ys = [0i64; WIDTH];
    let mut zs = [0i64; WIDTH];
    let beside = add_rows::<WIDTH>(&mut ys, &mut zs, rows, under_y, under_z);
    let y = Lifted {
        sums: &ys,
        n: rows.n,
        lift: beside.y.lift,
    };
    let z = Lifted {
        sums: &zs,
        n: rows.n,
        lift: beside.z.lift,
    };
    Totals { y, z }.ranked(beside.y.right, beside.z.right, rank)
}

// Kind 2: the totals, and what they tell. Y and Z lie at fixed places of the record, so `Multipliers` is made of them here.
pub fn ranking(rows: Rows, certificate: &[u8], rank: &mut [i64]) -> Result<Ranked, Fault>
    requires { (rows.n ≤ 16) × (rows.count ≤ 64) × MultipliersIn certificate.now (6 + 2 * rows.count) rows.count
        × (rows.n ≤ length rank.old) }
    ensures { RankingBy result (loop_of rows.entry) (ranking_held certificate.now 6 rows.entry.count) rank.old rank.new }
{
    if rows.n <= 2 {
        over::<4>(rows, certificate, rank)
    } else if rows.n <= 4 {
        over::<8>(rows, certificate, rank)
    } else {
        over::<32>(rows, certificate, rank)
    }
}
