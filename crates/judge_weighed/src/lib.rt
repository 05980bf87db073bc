// What rows with weights tell of what they are held to (theory/specs/WeightedRows.antt): over A they sum to one multiple of v, over A' to
// another, column by column, and their right sides to no more than a limit. Start and kept of a lasso are two uses of it. The bytes are
// those of sound records; the first column that fails over A ends the walk, and the first that fails over A' is remembered.
#![tactic(auto)]

ghost use Rattle.std.specs.Prelude.{◌≡◌, ◌+◌, ◌*◌, ◌≤◌, ◌<◌, nat_abs, length};
ghost use Rattle.refusal.specs.Faults.{result_of};
ghost use Rattle.theory.specs.Conditions.{weighed_told};
ghost use Rattle.judge_sums.specs.Places.{MultipliersIn};
ghost use Rattle.judge_weighed.specs.WeightedHeld.{weighted_of, TestedAt};

use judge_sums::{Multipliers, Rows};
use refusal::Fault;

// What weighted rows are held to, by places in the certificate: their weights and the entries of v each stand from one on. Over A they are to
// sum to `now` times v, over A' to `next` times v, and their right sides to no more than the limit.
#[derive(Clone, Copy, Debug, PartialEq, Eq)]
pub struct Held {
    pub weights: usize,
    pub v: usize,
    pub now: i64,
    pub next: i64,
    pub limit: i64,
}

// Whether one column's sums are what they are held to: over A, and over A'.
#[derive(Clone, Copy)]
struct ColumnHolds {
    now: bool,
    next: bool,
}

// The same, of column j.
fn column_holds(rows: Rows, j: usize, certificate: &[u8], held: Held) -> ColumnHolds
    requires { (j < rows.n) × (rows.count ≤ 64) × MultipliersIn certificate.now held.weights rows.count
        × (held.v + 2 * rows.n ≤ length certificate.now) × (held.v < 65536) × (rows.n ≤ 16)
        × (nat_abs held.now ≤ 65535) × (nat_abs held.next ≤ 65535) }
    ensures { TestedAt result.now result.next j (weighted_of rows.entry certificate.now held) }
{
    let weights = Multipliers {
        bytes: certificate,
        place: held.weights,
        count: rows.count,
    };
    let column = judge_sums::column_of(rows, j, weights);
    let entry = endian::i16_at(certificate, held.v + 2 * j);
    let over = column.now;
    let then = column.next;
    ColumnHolds {
        now: over.sum == judge_conditions::times(held.now, entry),
        next: then.sum == judge_conditions::times(held.next, entry),
    }
}

// The first that fails: a column over A (`number`), a column over A' (the next number), the right sides (the one after it). The number is that of
// a refusal in the paper's list, as its caller's condition has it. Where the weights lie is one of `Held`'s places, so `Multipliers` is made here, of both.
pub fn weighed(rows: Rows, certificate: &[u8], held: Held, number: usize) -> Result<(), Fault>
    requires { (rows.count ≤ 64) × MultipliersIn certificate.now held.weights rows.count
        × (held.v + 2 * rows.n ≤ length certificate.now) × (held.v < 65536) × (rows.n ≤ 16)
        × (nat_abs held.now ≤ 65535) × (nat_abs held.next ≤ 65535) × (number < 65536) }
    ensures { result ≡ result_of (weighed_told number (number + 1) (number + 2) rows.entry.n
        (weighted_of rows.entry certificate.now held)) tt }
{
    let mut late = None;
    for j in 0..rows.n {
        let holds = column_holds(rows, j, certificate, held);
        if !holds.now {
            return refusal::refused(number, j);
        }
        late = judge_conditions::remember(late, j, holds.next);
    }
    if let Some(place) = late {
        return refusal::refused(number + 1, place);
    }
    let weights = Multipliers {
        bytes: certificate,
        place: held.weights,
        count: rows.count,
    };
    let right = judge_sums::right_of(rows, weights);
    if held.limit < right.sum {
        return refusal::refused(number + 2, 0);
    }
    Ok(())
}
