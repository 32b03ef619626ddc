// Why names are refused.
use cf_base::At;
use std::alloc::{AllocError, AllocFailed};

/// Why the names of a program were refused. The place is where the name stands.
#[derive(Clone, Copy, Debug, PartialEq, Eq)]
pub enum NameEnd {
    /// The first name that is not bound as its place asks: as a variable, a data type or a constructor.
    Unknown(At),
    /// The first global name that was declared before.
    Twice(At),
    /// Memory ran out, or an index or number would pass 4,294,967,295.
    NoMemory,
}

impl From<AllocError> for NameEnd {
    ghost use Rattle.std.specs.Prelude.{◌≡◌};
    ghost use Rattle.cf_elab.specs.declared.ends.NameEnd.TheVariants.{NoMemory};

    ghost from_gives = { λ _ e. e ≡ NoMemory };

    fn from(_: AllocError) -> Self {
        NameEnd::NoMemory
    }
}

impl<T: Drop> From<AllocFailed<T>> for NameEnd {
    ghost use Rattle.std.specs.Prelude.{◌≡◌};
    ghost use Rattle.cf_elab.specs.declared.ends.NameEnd.TheVariants.{NoMemory};

    ghost from_gives = { λ _ e. e ≡ NoMemory };

    fn from(_: AllocFailed<T>) -> Self {
        NameEnd::NoMemory
    }
}
