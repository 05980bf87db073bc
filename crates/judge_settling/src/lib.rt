// What a settling's conditions tell (02, Q-8: the rise, and the ranking over the loop with the added row -g·x <= -t), from the bytes of
// sound records, and what it shows where they hold.
#![tactic(auto)]

ghost use Rattle.std.specs.Prelude.{◌≡◌, ◌≤◌, length};
ghost use Rattle.refusal.specs.Faults.{result_of};
ghost use Rattle.theory.specs.Conditions.{weighed_told};
ghost use Rattle.theory_settling.specs.Settlings.{rising};
ghost use Rattle.judge_conditions.specs.LoopHeld.{loop_of};
ghost use Rattle.judge_settling.specs.SettlingBy.{SettlingBy};
ghost use Rattle.judge_settling.specs.SettlingHeld.{SettlingIn, settling_held};

use judge_ranking::Ranked;
use judge_sums::Rows;
use judge_weighed::Held;
use refusal::Fault;

// The rise: EA = k g, EA' = -k g, Eb <= -k.
fn rises(rows: Rows, certificate: &[u8]) -> Result<(), Fault>
    requires { SettlingIn certificate.now rows.n rows.count }
    ensures { result ≡ result_of (weighed_told 61 62 63 rows.entry.n
        (rising (loop_of rows.entry) (settling_held certificate.now rows.entry.n rows.entry.count))) tt }
{
    let place = 6 + 2 * rows.n + 4;
    let k = endian::u16_at(certificate, place);
    let less = judge_conditions::minus(k as i64);
    let held = Held {
        weights: place + 2,
        v: 6,
        now: k as i64,
        next: less,
        limit: less,
    };
    judge_weighed::weighed(rows, certificate, held, 61)
}

// Kind 8: the rise, and the ranking over the loop with the added row. The rank is put into the list where all hold.
pub fn settling(rows: Rows, certificate: &[u8], rank: &mut [i64]) -> Result<Ranked, Fault>
    requires { SettlingIn certificate.now rows.n rows.count × (rows.n ≤ length rank.old) }
    ensures { SettlingBy result (loop_of rows.entry) (settling_held certificate.now rows.entry.n rows.entry.count)
        rank.old rank.new }
{
    rises(rows, certificate)?;
    let place = 6 + 2 * rows.n;
    let t = endian::i32_at(certificate, place);
    let right = judge_conditions::minus(t);
    let y = place + 6 + 2 * rows.count;
    judge_longer::longer_ranking(rows, certificate, y, 6, right, rank)
}
