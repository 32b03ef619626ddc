// From the bytes of a source to the bytes of a module.
ghost use Rattle.std.specs.Prelude.{◌≤◌, IfOk, IfErr, length};
ghost use Rattle.cf_driver.specs.Built.{BuiltFrom, IsNotBuilt};

use crate::lowering::lowered;
use crate::reading::read;
use cf_diag::Refusal;
use std::alloc::Global;
use wb_encode::encode;

/// The bytes of a module for a source of at most 1,048,576 bytes; or why the source is no program, or `Later` where it is a program that is
/// no sum of whole numbers.
pub fn built(alloc: Global, source: &[u8]) -> Result<Vec<u8>, Refusal>
    requires short { length source.now ≤ 1048576 }
    ensures module { IfOk result (λ bytes. BuiltFrom source.now bytes.items) }
    ensures refused { IfErr result (λ e. IsNotBuilt source.now e) }
{
    let program = read(alloc, source)?;
    let module = match lowered(alloc, &program) {
        Ok(Some(module)) => module,
        Ok(None) => return Err(Refusal::Later),
        Err(_) => return Err(Refusal::NoMemory),
    };
    match encode(alloc, &module) {
        Ok(bytes) => Ok(bytes),
        Err(_) => Err(Refusal::NoMemory),
    }
}
