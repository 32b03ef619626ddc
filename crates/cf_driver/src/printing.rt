// From the bytes of a source to the text of its core.
ghost use Rattle.std.specs.Prelude.{◌≤◌, IfOk, IfErr, List, length};
ghost use Rattle.cf_driver.specs.Cores.{CoreFrom, CoreReadsBack, HasNoCore};
ghost use Rattle.cf_rules.specs.Programs.{Declaration};
ghost use Rattle.cf_tree.specs.Tree.{Program};

use crate::reading::read;
use cf_core_text::core_text;
use cf_diag::Refusal;
use cf_elab::{NameEnd, direct};
use cf_printed::{cores_are_scoped, reads_back};
use cf_tree::is_explicit;
use std::alloc::Global;

/// What is printed of the core of a source reads back.
fn core_reads_back(source: &[u8])
    requires short { length source.now ≤ 1048576 }
    ensures { (p : Program) (core : List Declaration) → CoreReadsBack source.now p core }
{
    cores_are_scoped();
    reads_back();
}

/// The text of the core of a source of at most 1,048,576 bytes; or why the source is no program, `Later` where it is a program that does
/// not begin with `explicit;`, or `Unknown` or `Twice` for the first name that is wrong.
pub fn core(alloc: Global, source: &[u8]) -> Result<Vec<u8>, Refusal>
    requires short { length source.now ≤ 1048576 }
    ensures core { IfOk result (λ bytes. CoreFrom source.now bytes.items) }
    ensures refused { IfErr result (λ e. HasNoCore source.now e) }
{
    core_reads_back(source);
    let program = read(alloc, source)?;
    if !is_explicit(&program) {
        return Err(Refusal::Later);
    }
    let core = match direct(alloc, &program) {
        Ok(core) => core,
        Err(NameEnd::Unknown(at)) => return Err(Refusal::Unknown(at)),
        Err(NameEnd::Twice(at)) => return Err(Refusal::Twice(at)),
        Err(NameEnd::NoMemory) => return Err(Refusal::NoMemory),
    };
    match core_text(alloc, &core) {
        Ok(text) => Ok(text),
        Err(_) => Err(Refusal::NoMemory),
    }
}
