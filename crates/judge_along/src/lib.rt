// The sums along a row and at a state, taken straight from the bytes of the records. Each is a running
// sum (`Total`) that takes one column after another; totals that meet the same entry share its visit.
// Every total comes with its size, so that a caller may add to it. A row is known by its place in the
// bytes: who walks along `judge_sums::Rows` has that at hand.
#![tactic(auto)]

ghost use Rattle.std.specs.Prelude.{◌+◌, ◌*◌, ◌≤◌, ◌<◌, ◌≡◌, nat_abs, ◌*ℤ◌, length};
ghost use Rattle.whole.specs.Sums.{dot, Within};
ghost use Rattle.judge_sums.specs.Places.{entry_at, right_at};
ghost use Rattle.judge_sums.specs.Running.{CanGrow, Adds, SumOf};
ghost use Rattle.judge_along.specs.AlongRows.{state_term, AlongOf, direction_of, step_of, most_along, most_state, most_rank};

mod state;

pub use state::State;
use whole::Total;

// A total and one term more: an entry of a row times an entry of U, V or W, each at its place.
fn add_product(total: Total, rows: &[u8], entry: usize, certificate: &[u8], place: usize) -> Total
    requires { CanGrow total.sum × (entry + 2 ≤ length rows.now) × (place + 4 ≤ length certificate.now) }
    ensures { Adds most_along (entry_at rows.now entry *ℤ right_at certificate.now place) total.sum result.sum }
{
    total.plus(
        endian::i16_at(rows, entry),
        endian::i32_at(certificate, place),
    )
}

// One row's totals under an exclusion: A·V, A'·U, A·W and A'·W.
#[derive(Clone, Copy)]
struct RowTotals {
    v: Total,
    u: Total,
    now: Total,
    next: Total,
}

impl RowTotals {
    // One column more: the row's entries at two places, and those of U, V and W.
    fn visit(
        self,
        rows: &[u8],
        first: usize,
        second: usize,
        certificate: &[u8],
        u: usize,
        v: usize,
        w: usize,
    ) -> RowTotals
        requires { CanGrow self.v.sum × CanGrow self.u.sum × CanGrow self.now.sum × CanGrow self.next.sum
            × (first + 2 ≤ length rows.now) × (second + 2 ≤ length rows.now)
            × (u + 4 ≤ length certificate.now) × (v + 4 ≤ length certificate.now) × (w + 4 ≤ length certificate.now) }
        ensures { Adds most_along (entry_at rows.now first *ℤ right_at certificate.now v) self.v.sum result.v.sum
            × Adds most_along (entry_at rows.now second *ℤ right_at certificate.now u) self.u.sum result.u.sum
            × Adds most_along (entry_at rows.now first *ℤ right_at certificate.now w) self.now.sum result.now.sum
            × Adds most_along (entry_at rows.now second *ℤ right_at certificate.now w) self.next.sum result.next.sum }
    {
        RowTotals {
            v: add_product(self.v, rows, first, certificate, v),
            u: add_product(self.u, rows, second, certificate, u),
            now: add_product(self.now, rows, first, certificate, w),
            next: add_product(self.next, rows, second, certificate, w),
        }
    }
}

// The four totals along the row that starts at a place. U, V and W lie one after another from
// `place` on.
fn row_of(rows: &[u8], row: usize, n: usize, certificate: &[u8], place: usize) -> RowTotals
    requires { (row + 4 * n ≤ length rows.now) × (place + 12 * n ≤ length certificate.now) × (n < 16384) }
    ensures { AlongOf rows.now row n certificate.now place n result.v.sum result.u.sum result.now.sum result.next.sum }
{
    let next = row + 2 * n;
    let v = place + 4 * n;
    let w = place + 8 * n;
    let mut sums = RowTotals {
        v: Total::new(),
        u: Total::new(),
        now: Total::new(),
        next: Total::new(),
    };
    for j in 0..n {
        sums = sums.visit(
            rows,
            row + 2 * j,
            next + 2 * j,
            certificate,
            place + 4 * j,
            v + 4 * j,
            w + 4 * j,
        );
    }
    sums
}

// The left sides of an exclusion's two conditions at one row.
#[derive(Clone, Copy)]
pub struct LeftSides {
    pub direction: i64,
    pub step: i64,
}

// A·V + A'·U, and A·(W - V) + A'·W, at the row that starts at a place.
pub fn along(rows: &[u8], row: usize, n: usize, certificate: &[u8], place: usize) -> LeftSides
    requires { (row + 4 * n ≤ length rows.now) × (place + 12 * n ≤ length certificate.now) × (n < 16384) }
    ensures { (result.direction ≡ direction_of rows.now row n certificate.now place) × CanGrow result.direction
        × (result.step ≡ step_of rows.now row n certificate.now place) × CanGrow result.step }
{
    let sums = row_of(rows, row, n, certificate, place);
    LeftSides {
        direction: sums.v.sum + sums.u.sum,
        step: sums.now.sum - sums.v.sum + sums.next.sum,
    }
}

// r·x: a rank at a state.
pub fn rank_at(rank: &[i64], state: State) -> Total
    requires { (length rank.now ≤ 16) × (length rank.now ≤ length state.entries.now) × Within 274877906944 rank.now }
    ensures { (result.sum ≡ dot rank.now state.entry.entries.now) × (nat_abs result.sum ≤ length rank.now * most_rank) }
{
    let mut total = Total::new();
    for (r, x) in rank.iter().zip(state.entries) {
        total = total.plus(*r, *x);
    }
    total
}

// s·x: the entries from a place on at a state.
pub fn entries_at(bytes: &[u8], place: usize, state: State) -> Total
    requires { (place + 2 * length state.entries.now ≤ length bytes.now) × (length state.entries.now < 16384) }
    ensures { SumOf (length state.entry.entries.now) most_state (state_term bytes.now place state.entry.entries.now) result.sum }
{
    let mut total = Total::new();
    for (j, x) in state.entries.iter().enumerate() {
        total = total.plus(endian::i16_at(bytes, place + 2 * j), *x);
    }
    total
}
