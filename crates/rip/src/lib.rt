// The door for C and Rust: each call of the library under a name that a linker finds, with answers whose fields are numbers. Nothing
// is asked of a caller, and each answer is the proved call's, flattened as specs/Flat.antt says.
#![tactic(auto)]

ghost use Rattle.std.specs.Prelude.{◌≡◌, length};
ghost use Rattle.record.specs.Readers.{loop_reader, certificate_reader, reads, fills};
ghost use Rattle.record.specs.Writers.{writer, writes, room_after};
ghost use Rattle.record_short.specs.Conversions.{shortens, shortened_room, lengthens, lengthened_room};
ghost use Rattle.verdict_short.specs.Answers.{answered, rank_answered, bounded_answered};
ghost use Rattle.sheet_text.specs.Sheets.{sheet_answers, room_after as text_after};
ghost use Rattle.judge_rows.specs.VerdictRows.{rows_after};
ghost use Rattle.verdict_batch.specs.Batches.{batch_of, batch_answers, ranks_after};
ghost use Rattle.verdict_flat.specs.FlatVerdicts.{flat_verdict};
ghost use Rattle.rip.specs.Flat.{flat_reading, flat_writing, flat_bounded, flat_batch};

use record::{Reading, Writing};
use verdict::Bounded;
use verdict_batch::Batched;
use verdict_flat::FlatVerdict;

// ---- answers as C gets them: structs of numbers, since no enum crosses; a kind comes as its number

// The answer of a reading.
#[repr(C)]
#[derive(Clone, Copy)]
pub struct FlatReading {
    pub number: usize,
    pub place: usize,
    pub kind: usize,
    pub n: usize,
    pub m: usize,
    pub count: usize,
}

// The answer of a writing.
#[repr(C)]
#[derive(Clone, Copy)]
pub struct FlatWriting {
    pub number: usize,
    pub place: usize,
    pub written: usize,
}

// The answer of a bound: judging's, and the bound beside it.
#[repr(C)]
#[derive(Clone, Copy)]
pub struct FlatBounded {
    pub number: usize,
    pub place: usize,
    pub record: usize,
    pub outcome: usize,
    pub start: i64,
    pub fall: i64,
    pub grade: usize,
    pub bound: usize,
}

// The answer of a batch: record is 1 for the loop's refusals and else 0, count the records judged.
#[repr(C)]
#[derive(Clone, Copy)]
pub struct FlatBatch {
    pub number: usize,
    pub place: usize,
    pub record: usize,
    pub count: usize,
}

// ---- flattening

impl From<Reading> for FlatReading {
    ghost from_gives = { λ r flat. flat ≡ flat_reading r };

    fn from(r: Reading) -> FlatReading {
        FlatReading {
            number: r.number,
            place: r.place,
            kind: r.kind,
            n: r.n,
            m: r.m,
            count: r.count,
        }
    }
}

impl From<Writing> for FlatWriting {
    ghost from_gives = { λ w flat. flat ≡ flat_writing w };

    fn from(w: Writing) -> FlatWriting {
        FlatWriting {
            number: w.number,
            place: w.place,
            written: w.written,
        }
    }
}

impl From<Bounded> for FlatBounded {
    ghost from_gives = { λ b flat. flat ≡ flat_bounded b };

    fn from(b: Bounded) -> FlatBounded {
        let v = FlatVerdict::from(b.verdict);
        FlatBounded {
            number: v.number,
            place: v.place,
            record: v.record,
            outcome: v.outcome,
            start: v.start,
            fall: v.fall,
            grade: v.grade,
            bound: b.bound,
        }
    }
}

impl From<Batched> for FlatBatch {
    ghost from_gives = { λ b flat. flat ≡ flat_batch b };

    fn from(b: Batched) -> FlatBatch {
        FlatBatch {
            number: b.number,
            place: b.place,
            record: b.about,
            count: b.count,
        }
    }
}

// ---- records

// Reads a loop record.
#[unsafe(no_mangle)]
pub extern "C" fn cushiedoo_read_loop(bytes: &[u8], values: &mut [i64]) -> FlatReading
    ensures value { result ≡ flat_reading (reads (loop_reader bytes.now values.old)) }
    ensures values_after { values.new ≡ fills (loop_reader bytes.now values.old) values.old }
{
    record_read::read_loop(bytes, values).into()
}

// Reads a certificate record for a loop over n variables with m rows.
#[unsafe(no_mangle)]
pub extern "C" fn cushiedoo_read_certificate(
    bytes: &[u8],
    n: usize,
    m: usize,
    values: &mut [i64],
) -> FlatReading
    ensures value { result ≡ flat_reading (reads (certificate_reader bytes.now n m values.old)) }
    ensures values_after { values.new ≡ fills (certificate_reader bytes.now n m values.old) values.old }
{
    record_read::read_certificate(bytes, n, m, values).into()
}

// Writes a record.
#[unsafe(no_mangle)]
pub extern "C" fn cushiedoo_write_record(
    kind: usize,
    n: usize,
    m: usize,
    values: &[i64],
    room: &mut [u8],
) -> FlatWriting
    ensures value { result ≡ flat_writing (writes (writer kind n m values.now room.old)) }
    ensures room_after { room.new ≡ room_after (writer kind n m values.now room.old) room.old }
{
    record_write::write_record(kind, n, m, values, room).into()
}

// Moves a ranking from kind 2 to kind 7.
#[unsafe(no_mangle)]
pub extern "C" fn cushiedoo_shorten(
    ranking: &[u8],
    n: usize,
    m: usize,
    room: &mut [u8],
) -> FlatWriting
    ensures value { result ≡ flat_writing (shortens ranking.now n m room.old) }
    ensures room_after { room.new ≡ shortened_room ranking.now n m room.old }
{
    record_short_write::shorten(ranking, n, m, room).into()
}

// Moves a ranking from kind 7 to kind 2.
#[unsafe(no_mangle)]
pub extern "C" fn cushiedoo_lengthen(
    ranking: &[u8],
    n: usize,
    m: usize,
    room: &mut [u8],
) -> FlatWriting
    ensures value { result ≡ flat_writing (lengthens ranking.now n m room.old) }
    ensures room_after { room.new ≡ lengthened_room ranking.now n m room.old }
{
    record_short_write::lengthen(ranking, n, m, room).into()
}

// ---- verdicts

// Judges a certificate's bytes for a loop's bytes.
#[unsafe(no_mangle)]
pub extern "C" fn cushiedoo_judge(
    loopbytes: &[u8],
    certificate: &[u8],
    rank: &mut [i64],
) -> FlatVerdict
    ensures value { result ≡ flat_verdict (answered loopbytes.now certificate.now rank.old) }
    ensures rank_after { rank.new ≡ rank_answered loopbytes.now certificate.now rank.old }
{
    judge_by_kind::judge(loopbytes, certificate, rank).into()
}

// Judges a job's certificates at once: the records laid end to end, each with the next n rank numbers as its rank list. C hands over a row
// of verdicts, each of which is seven numbers of 64 bits.
#[unsafe(no_mangle)]
pub extern "C" fn cushiedoo_judge_all(
    loopbytes: &[u8],
    records: &[u8],
    verdicts: &mut [[usize; 7]],
    ranks: &mut [i64],
) -> FlatBatch
    ensures value { result ≡ flat_batch (batch_answers (batch_of loopbytes.now records.now (length verdicts.old) (length ranks.old))) }
    ensures verdicts_after { verdicts.new ≡ rows_after loopbytes.now records.now verdicts.old ranks.old }
    ensures ranks_after { ranks.new ≡ ranks_after loopbytes.now records.now (length verdicts.old) ranks.old }
{
    judge_rows::judge_rows(loopbytes, records, verdicts, ranks).into()
}

// Tells how many steps a loop can take from a state, by a certificate that has a rank.
#[unsafe(no_mangle)]
pub extern "C" fn cushiedoo_bound(
    loopbytes: &[u8],
    certificate: &[u8],
    state: &[i64],
) -> FlatBounded
    ensures { result ≡ flat_bounded (bounded_answered loopbytes.now certificate.now state.now) }
{
    bound_by_kind::bound(loopbytes, certificate, state).into()
}

// ---- the sheet

// Writes the text of a sheet.
#[unsafe(no_mangle)]
pub extern "C" fn cushiedoo_sheet(input: &[u8], text: &mut [u8]) -> FlatWriting
    ensures value { result ≡ flat_writing (sheet_answers input.now text.old) }
    ensures text_after { text.new ≡ text_after input.now text.old }
{
    sheet_write::sheet(input, text).into()
}
