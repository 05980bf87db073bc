// Where the numbers of a body come from: the bytes of a record, or the list of values that a record is to be written of.
#![tactic(auto)]

ghost use Rattle.std.specs.Prelude.{◌≡◌, List, [], ◌∷◌, replicate, Result};
ghost use Rattle.refusal.specs.declared.Fault.{Fault};
ghost use Rattle.record.specs.Fields.{Field};
ghost use Rattle.record_fields.specs.Sources.{InParts};

use crate::BodyField;
use refusal::Fault;

// Numbers, one after another.
pub trait Numbers {
    // What is answered of fields, the first of them next: what comes behind them, or the fault of the first that is out of range.
    ghost answer: { Self → List Field → Result Self Fault };

    // There are as many numbers.
    ghost has: { Self → List Field → Type 0 };

    // One number.
    fn field_fault<F: BodyField>(self) -> Result<Self, Fault>
        requires { has self (F.field ∷ []) }
        ensures { result ≡ answer self (F.field ∷ []) };

    ghost parts: { InParts answer has };
}

// One after another, up to the first that is out of range.
pub fn walk<S: Numbers, F: BodyField>(source: S, count: usize) -> Result<S, Fault>
    requires { S.has source (replicate count F.field) }
    ensures { result ≡ S.answer source (replicate count F.field) }
{
    let mut source = source;
    for _ in 0..count {
        source = source.field_fault::<F>()?;
    }
    Ok(source)
}

// Numbers that have a way of their own with a run of equal fields.
pub trait Source: Numbers {
    fn run_fault<F: BodyField>(self, count: usize) -> Result<Self, Fault>
        requires { Self.has self (replicate count F.field) }
        ensures { result ≡ Self.answer self (replicate count F.field) };
}
