// A batch whose verdicts go into a caller's row, whatever is put there for each. For callers in other languages, to whom an outcome cannot cross
// as it is, that is seven numbers a verdict, in the order of the fields that a single verdict has at the door.
#![tactic(auto)]

ghost use Rattle.std.specs.Prelude.{◌≡◌, length};
ghost use Rattle.verdict_flat.specs.declared.FlatVerdict.{FlatVerdict};
ghost use Rattle.verdict_flat.specs.VerdictsBack.{verdict_back};
ghost use Rattle.verdict_batch.specs.Batches.{batch_of, batch_answers, ranks_after};
ghost use Rattle.judge_rows.specs.VerdictRows.{row_of, filled_by, rows_after};

use verdict::Verdict;
use verdict_batch::Batched;
use verdict_flat::FlatVerdict;

// What a batch puts into a caller's row for a verdict. It is made of the numbers in which the judges tell it (`docs/PERFORMANCE.md`, "A batch").
pub trait Row: Copy {
    ghost of: { FlatVerdict → Self };

    // What is put for a verdict of these numbers.
    fn of(flat: FlatVerdict) -> Self
        ensures { result ≡ of flat };
}

// A verdict as it is.
impl Row for Verdict {
    ghost of = { verdict_back };

    fn of(flat: FlatVerdict) -> Verdict {
        Verdict::from(flat)
    }
}

// A verdict's fields in their order.
impl Row for [usize; 7] {
    ghost of = { row_of };

    fn of(v: FlatVerdict) -> [usize; 7] {
        [
            v.number,
            v.place,
            v.record,
            v.outcome,
            v.start.cast_unsigned() as usize,
            v.fall.cast_unsigned() as usize,
            v.grade,
        ]
    }
}

// Judges the records of some bytes for a loop, and puts what there is to put for each. A refusal's count is 0, so it changes nothing that was lent.
pub fn fill<R: Row>(loopbytes: &[u8], bytes: &[u8], rows: &mut [R], ranks: &mut [i64]) -> Batched
    ensures value { result ≡ batch_answers (batch_of loopbytes.now bytes.now (length rows.old) (length ranks.old)) }
    ensures rows_after { rows.new ≡ filled_by R.of loopbytes.now bytes.now rows.old ranks.old }
    ensures ranks_after { ranks.new ≡ ranks_after loopbytes.now bytes.now (length rows.old) ranks.old }
{
    let said = judge_batch::enter(loopbytes, bytes, rows.len(), ranks.len());
    let mut from = 0;
    for i in 0..said.count {
        let end = record_parting::end_at(bytes, from);
        rows[i] = R::of(judge_batch::flat_part(loopbytes, bytes, from, end, i, ranks));
        from = end;
    }
    said
}

// The same with a row of numbers for each.
pub fn judge_rows(
    loopbytes: &[u8],
    bytes: &[u8],
    rows: &mut [[usize; 7]],
    ranks: &mut [i64],
) -> Batched
    ensures value { result ≡ batch_answers (batch_of loopbytes.now bytes.now (length rows.old) (length ranks.old)) }
    ensures rows_after { rows.new ≡ rows_after loopbytes.now bytes.now rows.old ranks.old }
    ensures ranks_after { ranks.new ≡ ranks_after loopbytes.now bytes.now (length rows.old) ranks.old }
{
    fill(loopbytes, bytes, rows, ranks)
}
