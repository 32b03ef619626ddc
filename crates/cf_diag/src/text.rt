// The line that is written of a refusal.
ghost use Rattle.std.specs.Prelude.{◌≡◌, IfOk};
ghost use Rattle.cf_diag.specs.Refusals.{refusal_text};
ghost use Rattle.cf_diag.specs.declared.refusal.Refusal.TheVariants as refusal;

use crate::refusal::Refusal;
use cf_base::NoMemory;
use std::alloc::Global;

/// The line that is written of a refusal: `refused: `, its words and a line feed, all of it ASCII.
pub fn refusal_text(alloc: Global, r: &Refusal) -> Result<Vec<u8>, NoMemory>
    ensures { IfOk result (λ bytes. bytes.items ≡ refusal_text r.now) }
{
    match format!(in alloc; "refused: {r}\n") {
        Ok(line) => Ok(line.into_bytes()),
        Err(_) => Err(NoMemory),
    }
}

/// The line of `NoMemory`, which is written without taking memory.
pub fn no_memory_text() -> &'static [u8]
    ensures { result.now ≡ refusal_text refusal.NoMemory }
{
    b"refused: no memory\n"
}

/// The line of `WriteFault`, which is written without taking memory.
pub fn write_fault_text() -> &'static [u8]
    ensures { result.now ≡ refusal_text refusal.WriteFault }
{
    b"refused: write fault\n"
}
