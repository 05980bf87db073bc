// Records on file: which kinds a call wants, and what a reading and a writing answer.
#![tactic(auto)]

ghost use Rattle.std.specs.Prelude.{◌≡◌};
ghost use Rattle.record.specs.Writings.{written_of};

use refusal::Fault;

// The kinds of certificate that a call wants, 2 to 4; any other kind gives 4. A set of three, each in or out: flags, as the paper has them.
#[derive(Clone, Copy)]
pub struct Wanted {
    pub ranking: bool,
    pub exclusion: bool,
    pub lasso: bool,
}

// How many variables, loop rows and stem rows a record has or goes with. Only a lasso has stem rows.
#[derive(Clone, Copy, Debug, PartialEq, Eq)]
pub struct Counts {
    pub n: usize,
    pub m: usize,
    pub ms: usize,
}

// A reading's answer. On a refusal all but number and place are 0. It is no Result, since the paper names these fields, and `refused_reading`
// speaks of them on a refusal too.
#[derive(Clone, Copy)]
pub struct Reading {
    pub number: usize,
    pub place: usize,
    pub kind: usize,
    pub n: usize,
    pub m: usize,
    pub count: usize,
}

// A writing's answer. On a refusal all but number and place are 0. It is no Result, for the same reasons: the paper's fields, and `refused_writing`.
#[derive(Clone, Copy)]
pub struct Writing {
    pub number: usize,
    pub place: usize,
    pub written: usize,
}

impl Writing {
    // The bytes written, or the refusal.
    pub fn of(done: Result<usize, Fault>) -> Writing
        ensures { result ≡ written_of done }
    {
        match done {
            Ok(written) => Writing {
                number: 0,
                place: 0,
                written,
            },
            Err(fault) => Writing {
                number: fault.number,
                place: fault.place,
                written: 0,
            },
        }
    }
}
