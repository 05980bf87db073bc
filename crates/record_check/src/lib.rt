// Whether bytes are a sound record: 01's "Order for a record" without a list to fill. A record is visited once and never copied.
#![tactic(auto)]

ghost use Rattle.std.specs.Prelude.{◌≡◌, ◌&&◌, true, false, [], pos};
ghost use Rattle.refusal.specs.Faults.{result_of};
ghost use Rattle.refusal.specs.Tests.{first};
ghost use Rattle.record.specs.Layouts.{ranking, exclusion, lasso, kind_of};
ghost use Rattle.record.specs.Ranges.{variables, rows, within};
ghost use Rattle.record.specs.Readers.{framing, loop_reader};
ghost use Rattle.record.specs.Wants.{wants_of};
ghost use Rattle.record_check.specs.Checks.{checks, certificate_check, Answers};

mod of_kind;

pub use of_kind::OfKind;
use record::Wanted;
use record_faults::InBytes;
use refusal::{Fault, refused};

// What a check says of a sound record: its kind, by its number as it stands in the record, and its counts.
#[derive(Clone, Copy, Debug, PartialEq, Eq)]
pub struct Checked {
    pub kind: usize,
    pub n: usize,
    pub m: usize,
    pub ms: usize,
}

// The length L against the bytes.
pub fn frame(bytes: &[u8]) -> Result<(), Fault>
    ensures { result ≡ result_of (first framing (loop_reader bytes.now [])) tt }
{
    let long = bytes.len();
    if long < 4 {
        return refused(1, long);
    }
    let stated = endian::u32_at(bytes, 0);
    if stated < 2 {
        return refused(3, 0);
    }
    if long < 4 + stated {
        return refused(1, long);
    }
    if 4 + stated < long {
        return refused(2, 4 + stated);
    }
    Ok(())
}

// ---- the kinds: layout, length formula and value range of each. A caller that knows the frame and the kind asks for the rest alone

pub fn loop_record(opened: OfKind<1>) -> Result<Checked, Fault>
    ensures { result ≡ checks (loop_reader opened.entry.bytes.now []) }
{
    let bytes = opened.bytes;
    let end = bytes.len();
    if end < 10 {
        return refused(3, 0);
    }
    let n = endian::u16_at(bytes, 6);
    if !record_faults::variables_fit(n) {
        return refused(5, 6);
    }
    let m = endian::u16_at(bytes, 8);
    if !record_faults::rows_fit(m) {
        return refused(5, 8);
    }
    if end != 10 + m * (4 * n + 4) {
        return refused(3, 0);
    }
    record_faults::rows_fault(InBytes { bytes, place: 10 }, n, m)?;
    Ok(Checked {
        kind: 1,
        n,
        m,
        ms: 0,
    })
}

pub fn ranking_record(opened: OfKind<2>, n: usize, m: usize) -> Result<Checked, Fault>
    requires { (within variables (pos n) && within rows (pos m)) ≡ true }
    ensures { Answers ranking opened.entry.bytes.now n m result }
{
    let bytes = opened.bytes;
    let end = bytes.len();
    if end != 6 + 4 * m {
        return refused(3, 0);
    }
    record_faults::multipliers_fault(InBytes { bytes, place: 6 }, 2 * m)?;
    Ok(Checked {
        kind: 2,
        n,
        m,
        ms: 0,
    })
}

pub fn exclusion_record(opened: OfKind<3>, n: usize, m: usize) -> Result<Checked, Fault>
    requires { (within variables (pos n) && within rows (pos m)) ≡ true }
    ensures { Answers exclusion opened.entry.bytes.now n m result }
{
    let bytes = opened.bytes;
    let end = bytes.len();
    if end != 8 + 12 * n {
        return refused(3, 0);
    }
    record_faults::exclusion_fault(InBytes { bytes, place: 6 }, n)?;
    Ok(Checked {
        kind: 3,
        n,
        m,
        ms: 0,
    })
}

pub fn lasso_record(opened: OfKind<4>, n: usize, m: usize) -> Result<Checked, Fault>
    requires { (within variables (pos n) && within rows (pos m)) ≡ true }
    ensures { Answers lasso opened.entry.bytes.now n m result }
{
    let bytes = opened.bytes;
    let end = bytes.len();
    if end < 8 {
        return refused(3, 0);
    }
    let ms = endian::u16_at(bytes, 6);
    if !record_faults::rows_fit(ms) {
        return refused(5, 6);
    }
    if end != 22 + 2 * n + ms * (4 * n + 6) + 6 * m {
        return refused(3, 0);
    }
    record_faults::lasso_fault(InBytes { bytes, place: 8 }, n, m, ms)?;
    Ok(Checked { kind: 4, n, m, ms })
}

// ---- the checks

// Whether bytes are a sound loop record.
pub fn check_loop(bytes: &[u8]) -> Result<Checked, Fault>
    ensures { result ≡ checks (loop_reader bytes.now []) }
{
    frame(bytes)?;
    match endian::u16_at(bytes, 4) {
        1 => loop_record(OfKind { bytes }),
        _ => refused(4, 4),
    }
}

fn wants(wanted: Wanted, kind: usize) -> bool
    ensures { result ≡ wants_of wanted (kind_of kind) }
{
    match kind {
        2 => wanted.ranking,
        3 => wanted.exclusion,
        4 => wanted.lasso,
        _ => false,
    }
}

// Whether bytes are a sound certificate record, of a kind that is wanted, for a loop over n variables with m rows.
pub fn check_certificate(bytes: &[u8], n: usize, m: usize, wanted: Wanted) -> Result<Checked, Fault>
    ensures { result ≡ checks (certificate_check wanted bytes.now n m) }
{
    frame(bytes)?;
    let kind = endian::u16_at(bytes, 4);
    if !wants(wanted, kind) {
        return refused(4, 4);
    }
    if !record_faults::arguments_fit(n, m) {
        return refused(5, 0);
    }
    match kind {
        2 => ranking_record(OfKind { bytes }, n, m),
        3 => exclusion_record(OfKind { bytes }, n, m),
        4 => lasso_record(OfKind { bytes }, n, m),
        _ => refused(4, 4),
    }
}

// The same where rankings alone are wanted. It stands by itself, so that `check_certificate` has the reader as its one caller and is put in place
// there.
pub fn check_ranking(bytes: &[u8], n: usize, m: usize) -> Result<Checked, Fault>
    ensures { result ≡ checks (certificate_check (record { ranking = true; exclusion = false; lasso = false }) bytes.now n m) }
{
    frame(bytes)?;
    if endian::u16_at(bytes, 4) != 2 {
        return refused(4, 4);
    }
    if !record_faults::arguments_fit(n, m) {
        return refused(5, 0);
    }
    ranking_record(OfKind { bytes }, n, m)
}
