// Whether bytes are a sound record of kind 5, a loop of several paths, or of kind 6, a lexicographic argument for one (02, Q-3): the
// tests of "Order for a record". A record is visited once and never copied.
#![tactic(auto)]

ghost use Rattle.std.specs.Prelude.{◌+◌, ◌*◌, ◌≤◌, ◌≡◌, ◌++◌, pos, length, replicate};
ghost use Rattle.refusal.specs.Faults.{result_of};
ghost use Rattle.refusal.specs.Tests.{done, first};
ghost use Rattle.record.specs.Layouts.{multiplier};
ghost use Rattle.record_fields.specs.Runs.{fits};
ghost use Rattle.record_paths.specs.PathCertificates.{counted, component_fields, components_fields, sound_lexicographic};
ghost use Rattle.record_paths.specs.PathFields.{fall, bytes_alone};
ghost use Rattle.record_paths.specs.PathLoops.{rows_in, sound_paths};
ghost use Rattle.record_paths.proofs.FallBounds.{fall_wide, fall_range};
ghost use Rattle.record_paths_check.specs.PathChecks.{walked, m_fits, component_there, multipliers_of};
ghost use Rattle.record_paths_check.specs.PathChecks.{PathsCounted, ComponentsCounted, Numbered};

use record_faults::{BodyField, Direction, InBytes, Numbers, RightSide, Source};
use refusal::{Fault, refused};

// ---- walks along the paths: each is tested and counted at once

// The sum of the m's, if each is a count of rows.
fn rows_walked(bytes: &[u8], paths: usize) -> Result<usize, Fault>
    requires { (paths ≤ 8) × (10 + 2 * paths ≤ length bytes.now) }
    ensures { result ≡ walked 5 10 paths (m_fits bytes.now) (rows_in bytes.now) }
{
    let mut sum = 0;
    for j in 0..paths {
        let place = 10 + 2 * j;
        let m = endian::u16_at(bytes, place);
        if !record_faults::rows_fit(m) {
            return refused(5, place);
        }
        sum += m;
    }
    Ok(sum)
}

// The multipliers of all lists, if the component number of each path exists.
fn lists_walked(
    loopbytes: &[u8],
    bytes: &[u8],
    paths: usize,
    components: usize,
) -> Result<usize, Fault>
    requires numbered { Numbered loopbytes.now bytes.now paths }
    requires few_components { components ≤ 8 }
    ensures { result ≡ walked 14 8 paths (component_there components bytes.now)
        (multipliers_of loopbytes.now bytes.now) }
{
    let mut sum = 0;
    for j in 0..paths {
        let place = 8 + 2 * j;
        let component = endian::u16_at(bytes, place);
        if components <= component {
            return refused(14, place);
        }
        let m = endian::u16_at(loopbytes, 10 + 2 * j);
        sum += m * (2 + component);
    }
    Ok(sum)
}

// ---- the values of kind 6

// δ
struct Fall;

impl BodyField for Fall {
    const WIDE: usize = 4;

    const LEAST: i64 = 1;

    const MOST: i64 = 1000000;

    ghost WIDE = { 4 };

    ghost LEAST = { pos 1 };

    ghost MOST = { pos 1000000 };

    ghost field = { fall };

    ghost wide = { fall_wide };

    ghost range = { fall_range };

    fn fits(bytes: &[u8], place: usize) -> bool {
        record_faults::between(endian::u32_at(bytes, place), 1, 1000000)
    }
}

// r, δ0 and δ of one component.
fn component_fault<S: Source>(source: S, n: usize) -> Result<S, Fault>
    requires { S.has source (component_fields n) }
    ensures { result ≡ S.answer source (component_fields n) }
{
    source
        .run_fault::<Direction>(n)?
        .field_fault::<RightSide>()?
        .field_fault::<Fall>()
}

fn components_fault<S: Source>(source: S, n: usize, count: usize) -> Result<S, Fault>
    requires { S.has source (components_fields n count) }
    ensures { result ≡ S.answer source (components_fields n count) }
{
    let mut source = source;
    for _ in 0..count {
        source = component_fault(source, n)?;
    }
    Ok(source)
}

// The components, and the multipliers of all paths as one run.
fn argument_fault<S: Source>(
    source: S,
    n: usize,
    components: usize,
    count: usize,
) -> Result<S, Fault>
    requires { S.has source (components_fields n components ++ replicate count multiplier) }
    ensures { result ≡ S.answer source (components_fields n components ++ replicate count multiplier) }
{
    record_faults::multipliers_fault(components_fault(source, n, components)?, count)
}

// ---- kind 5

// The m of each path, the length formula and the rows.
fn rows_told(bytes: &[u8], n: usize, paths: usize) -> Result<(), Fault>
    requires { PathsCounted bytes.now n paths }
    ensures { result ≡ result_of (first sound_paths (bytes_alone bytes.now)) tt }
{
    let end = bytes.len();
    let start = 10 + 2 * paths;
    if end < start {
        return refused(3, 0);
    }
    let rows = rows_walked(bytes, paths)?;
    if end != start + rows * (4 * n + 4) {
        return refused(3, 0);
    }
    let body = InBytes {
        bytes,
        place: start,
    };
    record_faults::rows_fault(body, n, rows)?;
    Ok(())
}

// Whether bytes are a sound record of kind 5.
pub fn check_paths(bytes: &[u8]) -> Result<(), Fault>
    ensures { result ≡ result_of (first sound_paths (bytes_alone bytes.now)) tt }
{
    record_check::frame(bytes)?;
    if endian::u16_at(bytes, 4) != 5 {
        return refused(4, 4);
    }
    if bytes.len() < 10 {
        return refused(3, 0);
    }
    let n = endian::u16_at(bytes, 6);
    if !record_faults::variables_fit(n) {
        return refused(5, 6);
    }
    let paths = endian::u16_at(bytes, 8);
    if !record_faults::between(paths, 1, 8) {
        return refused(5, 8);
    }
    rows_told(bytes, n, paths)
}

// ---- kind 6

// The component number of each path, the length formula, the components and the multipliers.
fn lists_told(loopbytes: &[u8], bytes: &[u8], components: usize) -> Result<(), Fault>
    requires loop_sound { first sound_paths (bytes_alone loopbytes.now) ≡ done }
    requires components_counted { ComponentsCounted bytes.now components }
    ensures { result ≡ result_of (first (sound_lexicographic (counted loopbytes.now)) (bytes_alone bytes.now)) tt }
{
    let end = bytes.len();
    let paths = endian::u16_at(loopbytes, 8);
    let start = 8 + 2 * paths;
    if end < start {
        return refused(3, 0);
    }
    let multipliers = lists_walked(loopbytes, bytes, paths, components)?;
    let n = endian::u16_at(loopbytes, 6);
    if end != start + components * (4 * n + 8) + 2 * multipliers {
        return refused(3, 0);
    }
    let body = InBytes {
        bytes,
        place: start,
    };
    argument_fault(body, n, components, multipliers)?;
    Ok(())
}

// Whether bytes are a sound record of kind 6 for a sound loop of kind 5.
pub fn check_lexicographic(loopbytes: &[u8], bytes: &[u8]) -> Result<(), Fault>
    requires { first sound_paths (bytes_alone loopbytes.now) ≡ done }
    ensures { result ≡ result_of (first (sound_lexicographic (counted loopbytes.now)) (bytes_alone bytes.now)) tt }
{
    record_check::frame(bytes)?;
    if endian::u16_at(bytes, 4) != 6 {
        return refused(4, 4);
    }
    if bytes.len() < 8 {
        return refused(3, 0);
    }
    let components = endian::u16_at(bytes, 6);
    if !record_faults::between(components, 1, 8) {
        return refused(5, 6);
    }
    lists_told(loopbytes, bytes, components)
}
