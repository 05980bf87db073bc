// The fields of a body as types: the bytes that each takes, its range, and the test of its number where it stands in bytes.
#![tactic(auto)]

ghost use Rattle.std.specs.Prelude.{ℕ, ℤ, ◌+◌, ◌≤◌, ◌≡◌, pos, neg_ℤ, length};
ghost use Rattle.record.specs.Fields.{Field, width};
ghost use Rattle.record.specs.Layouts.{row_count, entry, right_side, multiplier, scale, direction};
ghost use Rattle.record_fields.specs.Runs.{fits};
ghost use Rattle.record_fields.proofs.FieldBounds.{row_count_wide, row_count_range, entry_wide, entry_range, right_side_wide, right_side_range, multiplier_wide, multiplier_range, scale_wide, scale_range, direction_wide, direction_range};

use crate::{between, rows_fit};

// A field of a body: the bytes that it takes, its range, and whether the number at a place of bytes is in it.
pub trait BodyField {
    const WIDE: usize;

    const LEAST: i64;

    const MOST: i64;

    ghost WIDE: { ℕ };

    ghost LEAST: { ℤ };

    ghost MOST: { ℤ };

    ghost field: { Field };

    fn fits(bytes: &[u8], place: usize) -> bool
        requires { place + WIDE ≤ length bytes.now }
        ensures { result ≡ fits field bytes.now place };

    ghost wide: { width field.form ≡ WIDE };

    ghost range: { field.range ≡ record { least = LEAST; most = MOST } };
}

// m, ms
#[derive(Clone, Copy)]
pub struct RowCount;

// An entry of A, A', B, B' or s.
#[derive(Clone, Copy)]
pub struct Entry;

// b, d, s0
#[derive(Clone, Copy)]
pub struct RightSide;

// An entry of Y, Z, T, H; h0.
#[derive(Clone, Copy)]
pub struct Multiplier;

// k, k2, q
#[derive(Clone, Copy)]
pub struct Scale;

// An entry of U, V, W.
#[derive(Clone, Copy)]
pub struct Direction;

impl BodyField for RowCount {
    const WIDE: usize = 2;

    const LEAST: i64 = 0;

    const MOST: i64 = 64;

    ghost WIDE = { 2 };

    ghost LEAST = { pos 0 };

    ghost MOST = { pos 64 };

    ghost field = { row_count };

    ghost wide = { row_count_wide };

    ghost range = { row_count_range };

    fn fits(bytes: &[u8], place: usize) -> bool {
        rows_fit(endian::u16_at(bytes, place))
    }
}

impl BodyField for Entry {
    const WIDE: usize = 2;

    const LEAST: i64 = -30000;

    const MOST: i64 = 30000;

    ghost WIDE = { 2 };

    ghost LEAST = { neg_ℤ (pos 30000) };

    ghost MOST = { pos 30000 };

    ghost field = { entry };

    ghost wide = { entry_wide };

    ghost range = { entry_range };

    fn fits(bytes: &[u8], place: usize) -> bool {
        (endian::u16_at(bytes, place) + 30000) % 65536 <= 60000
    }
}

impl BodyField for RightSide {
    const WIDE: usize = 4;

    const LEAST: i64 = -2000000000;

    const MOST: i64 = 2000000000;

    ghost WIDE = { 4 };

    ghost LEAST = { neg_ℤ (pos 2000000000) };

    ghost MOST = { pos 2000000000 };

    ghost field = { right_side };

    ghost wide = { right_side_wide };

    ghost range = { right_side_range };

    fn fits(bytes: &[u8], place: usize) -> bool {
        (endian::u32_at(bytes, place) + 2000000000) % 4294967296 <= 4000000000
    }
}

impl BodyField for Multiplier {
    const WIDE: usize = 2;

    const LEAST: i64 = 0;

    const MOST: i64 = 60000;

    ghost WIDE = { 2 };

    ghost LEAST = { pos 0 };

    ghost MOST = { pos 60000 };

    ghost field = { multiplier };

    ghost wide = { multiplier_wide };

    ghost range = { multiplier_range };

    fn fits(bytes: &[u8], place: usize) -> bool {
        between(endian::u16_at(bytes, place), 0, 60000)
    }
}

impl BodyField for Scale {
    const WIDE: usize = 2;

    const LEAST: i64 = 1;

    const MOST: i64 = 60000;

    ghost WIDE = { 2 };

    ghost LEAST = { pos 1 };

    ghost MOST = { pos 60000 };

    ghost field = { scale };

    ghost wide = { scale_wide };

    ghost range = { scale_range };

    fn fits(bytes: &[u8], place: usize) -> bool {
        between(endian::u16_at(bytes, place), 1, 60000)
    }
}

impl BodyField for Direction {
    const WIDE: usize = 4;

    const LEAST: i64 = -60000;

    const MOST: i64 = 60000;

    ghost WIDE = { 4 };

    ghost LEAST = { neg_ℤ (pos 60000) };

    ghost MOST = { pos 60000 };

    ghost field = { direction };

    ghost wide = { direction_wide };

    ghost range = { direction_range };

    fn fits(bytes: &[u8], place: usize) -> bool {
        (endian::u32_at(bytes, place) + 60000) % 4294967296 <= 120000
    }
}
