// What a lasso's conditions tell (01, "Lasso": start, kept, and the ranking over the loop with the added row -s·x <= s0), from the bytes of
// sound records, and what it shows where they hold.
#![tactic(auto)]

ghost use Rattle.std.specs.Prelude.{◌≡◌, ◌≤◌, ◌<◌, length};
ghost use Rattle.refusal.specs.Faults.{result_of};
ghost use Rattle.theory.specs.Conditions.{weighed_told};
ghost use Rattle.theory.specs.Lassos.{starting, keeping};
ghost use Rattle.judge_conditions.specs.LoopHeld.{loop_of};
ghost use Rattle.judge_lasso.specs.LassoBy.{LassoBy};
ghost use Rattle.judge_lasso.specs.LassoHeld.{carrying_held, s_place};
ghost use Rattle.judge_lasso.specs.LassoAt.{lasso_at};

mod lasso_record;

use judge_ranking::Ranked;
use judge_sums::Rows;
use judge_weighed::Held;
pub use lasso_record::LassoRecord;
use refusal::Fault;

// What start and kept are held to: to carry the invariant s·x + s0 >= 0 from h times itself before a step to k times itself after it, so
// their right sides may come to (k - h) s0.
fn carrying(certificate: LassoRecord, weights: usize, h: usize, k: usize) -> Held
    requires { (h < 65536) × (k < 65536) }
    ensures { result ≡ carrying_held certificate.entry.bytes.now certificate.entry.n weights (s_place certificate.entry.n certificate.entry.ms) h k }
{
    let before = h as i64;
    let after = k as i64;
    Held {
        weights,
        v: certificate.s_place(),
        now: before,
        next: judge_conditions::minus(after),
        limit: judge_conditions::times(after - before, certificate.s0()),
    }
}

// Start: TB = 0, TB' = -k s, Td <= k s0.
fn starts(certificate: LassoRecord) -> Result<(), Fault>
    ensures { result ≡ result_of (weighed_told 41 42 43 certificate.entry.n (starting (lasso_at certificate.entry))) tt }
{
    let k_at = certificate.k_place();
    let k = endian::u16_at(certificate.bytes, k_at);
    let held = carrying(certificate, k_at + 2, 0, k);
    let stem = Rows {
        bytes: certificate.bytes,
        start: 8,
        n: certificate.n,
        count: certificate.ms,
    };
    judge_weighed::weighed(stem, certificate.bytes, held, 41)
}

// Kept: HA - h0 s = 0, HA' = -k2 s, Hb + h0 s0 <= k2 s0.
fn keeps(rows: Rows, certificate: LassoRecord) -> Result<(), Fault>
    requires { (rows.n ≡ certificate.n) × (rows.count ≡ certificate.m) }
    ensures { result ≡ result_of (weighed_told 44 45 46 rows.entry.n (keeping (loop_of rows.entry) (lasso_at certificate.entry))) tt }
{
    let k2_at = certificate.k2_place();
    let weights = k2_at + 2;
    let h0 = endian::u16_at(certificate.bytes, weights + 2 * certificate.m);
    let k2 = endian::u16_at(certificate.bytes, k2_at);
    let held = carrying(certificate, weights, h0, k2);
    judge_weighed::weighed(rows, certificate.bytes, held, 44)
}

// Kind 4: start, kept, and the ranking over the loop with the added row. The rank is put into the list where all hold.
pub fn lasso(rows: Rows, certificate: LassoRecord, rank: &mut [i64]) -> Result<Ranked, Fault>
    requires { (rows.n ≡ certificate.n) × (rows.count ≡ certificate.m) × (rows.n ≤ length rank.old) }
    ensures { LassoBy result (loop_of rows.entry) (lasso_at certificate.entry) rank.old rank.new }
{
    starts(certificate)?;
    keeps(rows, certificate)?;
    let y = certificate.y_place();
    judge_longer::longer_ranking(
        rows,
        certificate.bytes,
        y,
        certificate.s_place(),
        certificate.s0(),
        rank,
    )
}
