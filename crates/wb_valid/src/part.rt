//! The parts of a module, and why a module is not valid.

ghost use Rattle.std.specs.Prelude.{◌≡◌};
ghost use Rattle.wb_valid.specs.declared.part.InvalidEnd.TheVariants.{NoMemory as WantOfMemory};

use std::alloc::{AllocError, AllocFailed};
use thiserror::Error;

/// A part of a module that validity speaks of.
#[derive(Clone, Copy, Debug, PartialEq, Eq)]
pub enum Part {
    /// The type index of the function with this index.
    FuncType(u32),
    /// The number of memories.
    Memories,
    /// The sizes of the memories.
    MemoryLimits,
    /// The initial value of the global with this index.
    GlobalInit(u32),
    /// The export with this number.
    ExportOf(u32),
    /// The body of the function with this index.
    Body(u32),
}

/// Why there is no valid module.
#[derive(Clone, Copy, Debug, PartialEq, Eq, Error)]
pub enum InvalidEnd {
    /// The first part that is not valid, in the order of [`Part`] and then of numbers.
    #[error("invalid module: {0:?}")]
    Invalid(Part),
    /// Memory ran out, or a number is 2^32 or more.
    #[error("no memory")]
    NoMemory,
}

/// Memory ran out, or a sum of counts is 2^64 or more.
#[derive(Clone, Copy, Debug, PartialEq, Eq)]
pub struct OutOfMemory;

impl From<AllocError> for OutOfMemory {
    fn from(_error: AllocError) -> OutOfMemory {
        OutOfMemory
    }
}

impl<T: Drop> From<AllocFailed<T>> for OutOfMemory {
    fn from(_error: AllocFailed<T>) -> OutOfMemory {
        OutOfMemory
    }
}

impl From<OutOfMemory> for InvalidEnd {
    ghost from_gives = { λ _ e. e ≡ WantOfMemory };

    fn from(_error: OutOfMemory) -> InvalidEnd {
        InvalidEnd::NoMemory
    }
}
