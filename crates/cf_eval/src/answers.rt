// What the calls take and answer.
use cf_base::NoMemory;
use cf_term::Term;
use cf_value::Value;
use thiserror::Error;

/// How far an evaluation may go.
#[derive(Clone, Copy, PartialEq, Eq, Debug)]
pub struct Budget {
    /// how many steps it may take
    pub steps: u64,
    /// how many steps may be open in one another
    pub nest: u32,
}

/// A value, and the steps that are left.
#[derive(Drop)]
pub struct Evaluated {
    /// the value
    pub value: Value,
    /// the steps that are left
    pub left: u64,
}

/// A normal form, and the steps that are left.
#[derive(Drop)]
pub struct Written {
    /// the normal form
    pub term: Term,
    /// the steps that are left
    pub left: u64,
}

/// Why there is no answer.
#[derive(Clone, Copy, PartialEq, Eq, Debug, Error)]
pub enum EvalEnd {
    /// a step was to be taken, and none was left
    #[error("no steps are left")]
    Spent,
    /// a step was to be taken, and the nest was used up
    #[error("nested too deeply")]
    Deep,
    /// memory ran out
    #[error("no memory")]
    NoMemory,
}

impl From<NoMemory> for EvalEnd {
    ghost use Rattle.std.specs.Prelude.{◌≡◌};
    ghost use Rattle.cf_eval.specs.declared.answers.EvalEnd.TheVariants.{NoMemory};

    ghost from_gives = { λ _ e. e ≡ NoMemory };

    fn from(_end: NoMemory) -> EvalEnd {
        EvalEnd::NoMemory
    }
}
