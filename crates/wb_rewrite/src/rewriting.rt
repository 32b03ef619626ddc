// Modules written again.
ghost use Rattle.std.specs.Prelude.{Err, IfOk, IfErr};
ghost use Rattle.wb_decode.specs.Sections.{Decodes};
ghost use Rattle.wb_rewrite.specs.Rewritten.{AreSameModule};

use std::alloc::Global;
use wb_decode::{DecodeEnd, decode};
use wb_encode::encode;

/// The module that the bytes are, as the encoder writes it.
///
/// # Errors
///
/// Those of `decode`; `NoMemory` also where the encoder finds none.
pub fn rewritten(alloc: Global, bytes: &[u8]) -> Result<Vec<u8>, DecodeEnd>
    ensures same { IfOk result (λ out. AreSameModule bytes.now out.items) }
    ensures refused { IfErr result (λ end. Decodes bytes.now (Err end)) }
{
    let module = match decode(alloc, bytes) {
        Ok(module) => module,
        Err(end) => return Err(end),
    };
    match encode(alloc, &module) {
        Ok(out) => Ok(out),
        Err(_) => Err(DecodeEnd::NoMemory),
    }
}
