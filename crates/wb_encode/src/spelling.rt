//! What can be written, and lists of it.
ghost use Rattle.std.specs.Prelude.{OnOk};
ghost use Rattle.wb_encode.specs.Appended.{Written, EachSpelled, VecSpelled, Every};

use crate::numbers::push_length;
use std::alloc::AllocError;

/// A part of a module that has bytes.
pub trait Spell {
    ghost use Rattle.std.specs.Prelude.{ℕ, List};

    // it has bytes
    ghost is_encodable: { Self → Type 0 };

    // these bytes spell it
    ghost spells: { Self → List ℕ → Type 0 };

    /// Writes the part at the end.
    fn push_to(&self, out: &mut Vec<u8>) -> Result<(), AllocError>
        requires { is_encodable self.now }
        ensures { OnOk result (Written out.old.items out.new.items (spells self.now)) };
}

/// Writes parts one after another.
pub fn push_each<T: Spell>(out: &mut Vec<u8>, parts: &[T]) -> Result<(), AllocError>
    requires { Every T.is_encodable parts.now }
    ensures { OnOk result (Written out.old.items out.new.items (EachSpelled T.spells parts.now)) }
{
    for part in parts {
        part.push_to(out)?;
    }
    Ok(())
}

/// Writes a vector (the standard, 5.1.3): the number of parts, and the parts.
pub fn push_vec<T: Spell>(out: &mut Vec<u8>, parts: &[T]) -> Result<(), AllocError>
    requires { Every T.is_encodable parts.now }
    ensures { OnOk result (Written out.old.items out.new.items (VecSpelled T.spells parts.now)) }
{
    push_length(out, parts.len())?;
    push_each(out, parts)?;
    Ok(())
}
