// What an exclusion's conditions tell (01, "Conditions": at every row A·V + A'·U <= 0; then at every row A·(W - V) + A'·W <= q·b), from
// the bytes of sound records. Each row is visited once: the first that fails the direction ends the walk, and the first that fails the
// step is remembered.
#![tactic(auto)]

ghost use Rattle.std.specs.Prelude.{◌≡◌, ◌+◌, ◌*◌, ◌≤◌, length};
ghost use Rattle.refusal.specs.Faults.{result_of};
ghost use Rattle.theory.specs.Conditions.{exclusion_told};
ghost use Rattle.judge_sums.specs.Lists.{row_from};
ghost use Rattle.judge_conditions.specs.LoopHeld.{loop_of};
ghost use Rattle.judge_exclusion.specs.ExclusionHeld.{stays, meets, exclusion_held};

use judge_sums::Rows;
use refusal::Fault;

// Whether the two conditions hold at one row.
#[derive(Clone, Copy)]
struct RowHolds {
    direction: bool,
    step: bool,
}

// Kind 3 at the row that starts at a place, which the walk along the rows carries with it.
fn row_holds(rows: &[u8], row: usize, n: usize, certificate: &[u8]) -> RowHolds
    requires { (row + (4 * n + 4) ≤ length rows.now) × (8 + 12 * n ≤ length certificate.now) × (n ≤ 16) }
    ensures { (result.direction ≡ stays (exclusion_held certificate.now n) (row_from rows.now n row))
        × (result.step ≡ meets (exclusion_held certificate.now n) (row_from rows.now n row)) }
{
    let sides = judge_along::along(rows, row, n, certificate, 8);
    let q = endian::u16_at(certificate, 6);
    let right = judge_conditions::times(q as i64, endian::i32_at(rows, row + 4 * n));
    RowHolds {
        direction: sides.direction <= 0,
        step: sides.step <= right,
    }
}

// Kind 3: the first row that fails, by the direction before the step.
pub fn exclusion(rows: Rows, certificate: &[u8]) -> Result<(), Fault>
    requires { (rows.n ≤ 16) × (8 + 12 * rows.n ≤ length certificate.now) }
    ensures { result ≡ result_of (exclusion_told (loop_of rows.entry) (exclusion_held certificate.now rows.entry.n)) tt }
{
    let stride = rows.stride();
    let mut at = rows.start;
    let mut late = None;
    for i in 0..rows.count {
        let holds = row_holds(rows.bytes, at, rows.n, certificate);
        if !holds.direction {
            return refusal::refused(31, i);
        }
        late = judge_conditions::remember(late, i, holds.step);
        at += stride;
    }
    match late {
        Some(place) => refusal::refused(32, place),
        None => Ok(()),
    }
}
