//! How runs end, and why there is no machine.

ghost use Rattle.std.specs.Prelude.{◌≡◌};
ghost use Rattle.wb_machine.specs.declared.ends.OpenEnd.TheVariants.{NoMemory as WantOfMemory};

use thiserror::Error;
use wb_code::NoMemory;
use wb_plain::TrapKind;

/// Why there is no machine.
#[derive(Clone, Copy, Debug, PartialEq, Eq, Error)]
pub enum OpenEnd {
    /// The memory of the module begins with so many pages, which are more than 1,024.
    #[error("the memory begins with {0} pages")]
    TooMuchMemory(u32),
    /// Memory ran out, or `main` has 2^32 parameters or more.
    #[error("no memory")]
    NoMemory,
}

/// How a run of `main` ends.
#[derive(Clone, Copy, Debug, PartialEq, Eq)]
pub enum MachineEnd {
    /// With this result.
    Returned(i64),
    /// By a trap.
    Trap(TrapKind),
    /// The run goes on after all steps that it may make.
    StepLimit,
    /// A state has more words than there may be.
    StackFull,
    /// A state is no end and has no step.
    Stuck,
    /// No function `main` of any number of i64 to i64 is exported.
    NoMain,
}

impl From<NoMemory> for OpenEnd {
    ghost from_gives = { λ _ e. e ≡ WantOfMemory };

    fn from(_error: NoMemory) -> OpenEnd {
        OpenEnd::NoMemory
    }
}
