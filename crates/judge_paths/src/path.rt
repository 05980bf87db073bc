// A path of a loop with branches and its part of a lexicographic argument, as both lie: the path's rows in the loop record, its lists of
// multipliers and the components in the certificate, and which component is its own.
#![tactic(auto)]

ghost use Rattle.std.specs.Prelude.{◌+◌, ◌*◌, ◌≤◌, ◌<◌, nat_abs, length};
ghost use Rattle.judge_paths.specs.PathByPlaces.{PathIn};

use judge_sums::{Multipliers, Rows};

#[derive(Clone, Copy)]
pub struct Path<'l, 'c> {
    pub rows: Rows<'l>,
    pub certificate: &'c [u8],
    pub place: usize,
    pub first: usize,
    pub component: usize,
    ghost lies: { PathIn rows.bytes.now rows.start rows.n rows.count certificate.now place first component },
}

// What weighted rows are held to: r, of n entries, stands beside their weights; over A they are to weigh -r, over A' next times r, and their
// right sides no more than the limit.
#[derive(Clone, Copy)]
pub struct Held<'c> {
    pub weights: Multipliers<'c>,
    pub r: usize,
    pub n: usize,
    pub next: usize,
    pub limit: i64,
    ghost r_there: { r + 4 * n ≤ length weights.bytes.now },
    ghost next_small: { next < 65536 },
    ghost limit_small: { nat_abs limit ≤ 2147483648 },
}
