// Why a text is no program.
use cf_base::{At, Limit};
use std::alloc::{AllocError, AllocFailed};

/// Why the tokens of a text are not read as a program. The place is that of the first token with which something is wrong, where
/// the end of the text counts as a token; of what is wrong with it, the first of these is told.
#[derive(Clone, Copy, Debug, PartialEq, Eq)]
pub enum ParseEnd {
    /// No program, limits left aside, begins with the tokens up to this one.
    Syntax(At),
    /// With this token an item past a limit begins.
    TooMany(At, Limit),
    /// With this token a phrase begins that is deeper than 200.
    TooNested(At),
    /// This token is a number out of its range.
    Literal(At),
    /// Memory ran out.
    NoMemory,
}

/// Memory ran out.
#[derive(Debug, Drop)]
pub struct OutOfMemory;

impl From<AllocError> for OutOfMemory {
    fn from(_: AllocError) -> Self {
        OutOfMemory
    }
}

impl<T: Drop> From<AllocFailed<T>> for OutOfMemory {
    fn from(_: AllocFailed<T>) -> Self {
        OutOfMemory
    }
}
