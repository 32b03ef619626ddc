// Why a text has no tokens.
use std::alloc::{AllocError, AllocFailed};

/// Why a text was not read as tokens. Places are offsets in bytes.
#[derive(Clone, Copy, Debug, PartialEq, Eq)]
pub enum LexEnd {
    /// The text is not UTF-8: so long is its longest beginning that is.
    NotText(u32),
    /// The text is UTF-8, and here no token, blank or comment begins.
    BadChar(u32),
    /// Memory ran out.
    NoMemory,
}

impl From<AllocError> for LexEnd {
    ghost use Rattle.std.specs.Prelude.{◌≡◌};
    ghost use Rattle.cf_lex.specs.declared.ends.LexEnd.TheVariants.{NoMemory};

    ghost from_gives = { λ _ e. e ≡ NoMemory };

    fn from(_: AllocError) -> Self {
        LexEnd::NoMemory
    }
}

impl<T: Drop> From<AllocFailed<T>> for LexEnd {
    ghost use Rattle.std.specs.Prelude.{◌≡◌};
    ghost use Rattle.cf_lex.specs.declared.ends.LexEnd.TheVariants.{NoMemory};

    ghost from_gives = { λ _ e. e ≡ NoMemory };

    fn from(_: AllocFailed<T>) -> Self {
        LexEnd::NoMemory
    }
}
