//! Valid modules (the standard, 3.4.10).

ghost use Rattle.std.specs.Prelude.{◌≡◌, MatchResult};
ghost use Rattle.wb_syntax.specs.Typing.{Valid};
ghost use Rattle.wb_valid.specs.declared.part.InvalidEnd.TheVariants.{NoMemory};
ghost use Rattle.wb_valid.specs.Answers.{Judges};

use crate::part::{InvalidEnd, Part};
use crate::{exports, scans};
use std::alloc::Global;
use std::marker::Model;
use wb_syntax::Module;

/// A module that was found valid. Contracts see it as the module.
#[derive(Drop)]
pub struct ValidModule {
    inner: Module,
}

impl Model for ValidModule {
    ghost use Rattle.wb_syntax.specs.declared.syntax.Module.{Module};
    ghost use Rattle.wb_syntax.specs.Typing.{Valid};

    ghost Value = { Module };

    ghost view = { λ v. v.inner };

    ghost invariant = { λ v. (Valid v.inner → ⊥) → ⊥ };
}

impl ValidModule {
    /// The module that was found valid. Takes no memory.
    pub fn module(&self) -> &Module
        ensures same { result.now ≡ self.now }
        ensures valid { Valid self.now }
    {
        &self.inner
    }
}

/// The number of a part, or want of memory where it is 2^32 or more.
fn number(at: usize) -> Result<u32, InvalidEnd>
    ensures { MatchResult result (λ n. n ≡ at) (λ e. e ≡ NoMemory) }
{
    match u32::try_from(at) {
        Ok(number) => Ok(number),
        Err(_) => Err(InvalidEnd::NoMemory),
    }
}

/// Hands back the module where it is valid.
///
/// # Errors
///
/// `Invalid`, with the first part that is not valid: types of functions, the number of memories, sizes of memories,
/// initial values of globals, exports, bodies, and of one kind the least number. `NoMemory` where memory runs out, or
/// where a number passes its type.
pub fn validate(alloc: Global, m: Module) -> Result<ValidModule, InvalidEnd>
    ensures { Judges m result }
{
    if let Some(at) = scans::func_type(&m) {
        return Err(InvalidEnd::Invalid(Part::FuncType(number(at)?)));
    }
    if !scans::memories_are_few(&m) {
        return Err(InvalidEnd::Invalid(Part::Memories));
    }
    if scans::memory_limits(&m).is_some() {
        return Err(InvalidEnd::Invalid(Part::MemoryLimits));
    }
    if let Some(at) = scans::global_init(&m) {
        return Err(InvalidEnd::Invalid(Part::GlobalInit(number(at)?)));
    }
    if let Some(at) = exports::export(alloc, &m)? {
        return Err(InvalidEnd::Invalid(Part::ExportOf(number(at)?)));
    }
    if let Some(at) = scans::body(alloc, &m)? {
        return Err(InvalidEnd::Invalid(Part::Body(number(at)?)));
    }
    Ok(ValidModule { inner: m })
}
