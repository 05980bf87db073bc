// A job's certificates at once: what the call answers.
#![tactic(auto)]

// The refusal number, its place, the record that it speaks of (1 loop, 0 neither), and how many records were judged: none where it is refused.
// The paper names these fields, on a refusal too, so it is no Result.
#[derive(Clone, Copy)]
pub struct Batched {
    pub number: usize,
    pub place: usize,
    pub about: usize,
    pub count: usize,
}
