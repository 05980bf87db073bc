// Whether bytes are a sound record of kind 7, a short ranking (02, Q-6): the tests of "Order for a record". A record is visited once and
// never copied: one walk tests the triples and keeps what the first multiplier out of range tells.
#![tactic(auto)]

ghost use Rattle.std.specs.Prelude.{◌+◌, ◌*◌, ◌≤◌, ◌≡◌, length};
ghost use Rattle.refusal.specs.Faults.{result_of};
ghost use Rattle.refusal.specs.Tests.{first};
ghost use Rattle.record_paths.specs.PathFields.{bytes_alone};
ghost use Rattle.record_short.specs.ShortRecords.{row_rises, has_weight, sound_short};
ghost use Rattle.record_short_check.specs.ShortChecks.{triple_told, triples_told};

use record_faults::InBytes;
use refusal::{Fault, refused};

// ---- one triple

// Its row is below m and above the row before it.
fn row_fits(bytes: &[u8], m: usize, i: usize) -> bool
    requires { 8 + 6 * i + 2 ≤ length bytes.now }
    ensures { result ≡ row_rises m bytes.now i }
{
    let at = 8 + 6 * i;
    let row = endian::u16_at(bytes, at);
    row < m && (i == 0 || endian::u16_at(bytes, at - 6) < row)
}

// Y and Z are not both zero.
fn weighs(bytes: &[u8], i: usize) -> bool
    requires { 8 + 6 * i + 6 ≤ length bytes.now }
    ensures { result ≡ has_weight bytes.now i }
{
    let at = 8 + 6 * i;
    endian::u16_at(bytes, at + 2) != 0 || endian::u16_at(bytes, at + 4) != 0
}

// What is told at its place.
fn triple(bytes: &[u8], m: usize, i: usize) -> Result<(), Fault>
    requires { 8 + 6 * i + 6 ≤ length bytes.now }
    ensures { result ≡ result_of (triple_told m bytes.now i) tt }
{
    if !row_fits(bytes, m, i) {
        return refused(15, 8 + 6 * i);
    }
    if !weighs(bytes, i) {
        return refused(16, 8 + 6 * i);
    }
    Ok(())
}

// ---- all triples

// The first that fails is told; where none does, the first multiplier out of range.
fn triples(bytes: &[u8], m: usize, count: usize) -> Result<(), Fault>
    requires { (8 + 6 * count ≤ length bytes.now) × (m ≤ 64) }
    ensures { result ≡ result_of (triples_told m bytes.now count) tt }
{
    let mut values = Ok(());
    for i in 0..count {
        triple(bytes, m, i)?;
        let pair = InBytes {
            bytes,
            place: 10 + 6 * i,
        };
        values = values
            .and(record_faults::multipliers_fault(pair, 2))
            .and(Ok(()));
    }
    values
}

// Whether bytes are a sound record of kind 7 for a loop over n variables with m rows.
pub fn check_short(bytes: &[u8], n: usize, m: usize) -> Result<(), Fault>
    ensures { result ≡ result_of (first (sound_short n m) (bytes_alone bytes.now)) tt }
{
    record_check::frame(bytes)?;
    if endian::u16_at(bytes, 4) != 7 {
        return refused(4, 4);
    }
    if !record_faults::arguments_fit(n, m) {
        return refused(5, 0);
    }
    if bytes.len() < 8 {
        return refused(3, 0);
    }
    let count = endian::u16_at(bytes, 6);
    if !record_faults::rows_fit(count) {
        return refused(5, 6);
    }
    if bytes.len() != 8 + 6 * count {
        return refused(3, 0);
    }
    triples(bytes, m, count)
}
