//! Why bytes are no module of the profile.

ghost use Rattle.std.specs.Prelude.{◌≡◌};
ghost use Rattle.wb_decode.specs.declared.ends.Fault.TheVariants as faults;
ghost use Rattle.wb_decode.specs.declared.ends.DecodeEnd.TheVariants as ends;

use std::alloc::{AllocError, AllocFailed};
use thiserror::Error;

/// What stands outside the profile.
#[derive(Clone, Copy, Debug, PartialEq, Eq)]
pub enum What {
    /// An import section.
    Import,
    /// A table section, an exported table or `call_indirect`.
    Table,
    /// A start section.
    Start,
    /// An element section.
    Element,
    /// A data section.
    DataPart,
    /// A value type or an instruction of floating point.
    Float,
}

/// Why there is no module. Offsets are in bytes from the first byte of the input.
#[derive(Clone, Copy, Debug, PartialEq, Eq, Error)]
pub enum DecodeEnd {
    /// Not the binary format: at 0 where the header is wrong; else at the id of the first section that is wrong;
    /// else, where the numbers of functions and of bodies differ, at the end.
    #[error("malformed module at byte {0}")]
    Malformed(u32),
    /// The binary format, but not of the profile: at the id of the first section with something outside it.
    #[error("module outside the profile at byte {0}")]
    Outside(u32, What),
    /// Memory ran out, or an offset is 2^32 or more.
    #[error("no memory")]
    NoMemory,
}

/// Why reading stops within a section. The place is the section's.
#[derive(Clone, Copy, Debug, PartialEq, Eq)]
pub enum Fault {
    /// Not the binary format.
    Malformed,
    /// The binary format, but not of the profile.
    Outside(What),
    /// Memory ran out.
    NoMemory,
}

impl From<AllocError> for Fault {
    ghost from_gives = { λ _ e. e ≡ faults.NoMemory };

    fn from(_error: AllocError) -> Fault {
        Fault::NoMemory
    }
}

impl<T: Drop> From<AllocFailed<T>> for Fault {
    ghost from_gives = { λ _ e. e ≡ faults.NoMemory };

    fn from(_error: AllocFailed<T>) -> Fault {
        Fault::NoMemory
    }
}

impl From<AllocError> for DecodeEnd {
    ghost from_gives = { λ _ e. e ≡ ends.NoMemory };

    fn from(_error: AllocError) -> DecodeEnd {
        DecodeEnd::NoMemory
    }
}
