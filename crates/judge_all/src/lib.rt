// A job's certificates at once, with a lent row of verdicts: one thin function over what fills a row of any kind.
#![tactic(auto)]

ghost use Rattle.std.specs.Prelude.{◌≡◌, length};
ghost use Rattle.verdict_batch.specs.Batches.{batch_of, batch_answers, verdicts_after, ranks_after};

use verdict::Verdict;
use verdict_batch::Batched;

// Judges the records of some bytes for a loop, and puts a verdict for each. A refusal's count is 0, so it changes nothing that was lent.
pub fn judge_all(
    loopbytes: &[u8],
    bytes: &[u8],
    verdicts: &mut [Verdict],
    ranks: &mut [i64],
) -> Batched
    ensures { (result ≡ batch_answers (batch_of loopbytes.now bytes.now (length verdicts.old) (length ranks.old)))
        × (verdicts.new ≡ verdicts_after loopbytes.now bytes.now verdicts.old ranks.old)
        × (ranks.new ≡ ranks_after loopbytes.now bytes.now (length verdicts.old) ranks.old) }
{
    judge_rows::fill(loopbytes, bytes, verdicts, ranks)
}
