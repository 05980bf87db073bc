// Verdicts: what judging and bound answer.
#![tactic(auto)]

// The grade of an exclusion: no linear ranking function over whole numbers, or over fractions only.
#[derive(Clone, Copy)]
pub enum Grade {
    Whole,
    Fractions,
}

// What an accepted certificate shows; a refusal shows nothing.
#[derive(Clone, Copy)]
pub enum Outcome {
    Nothing,
    Ranking { start: i64, fall: i64 },
    Exclusion { grade: Grade },
    Lasso { start: i64, fall: i64 },
    Lexicographic,
    Settling { start: i64, fall: i64 },
}

// The refusal number, its place, the record that it speaks of (1 loop, 2 certificate, 0 neither), and the outcome. It is no Result, since the paper
// names these fields, on a refusal too, and what is proved of verdicts (`one_answer`) speaks of them.
#[derive(Clone, Copy)]
pub struct Verdict {
    pub number: usize,
    pub place: usize,
    pub about: usize,
    pub outcome: Outcome,
}

// A verdict with the bound on steps beside it; a refusal's bound is 0. The paper names both, so it is no Result.
#[derive(Clone, Copy)]
pub struct Bounded {
    pub verdict: Verdict,
    pub bound: usize,
}
