// Refusals on the error stream.
ghost use Rattle.std.specs.Prelude.{◌≡◌, ◌≢◌, ◌⊎◌};
ghost use Rattle.cf_diag.specs.declared.refusal.Refusal.TheVariants as refusals;
ghost use Rattle.cftt.specs.Answers.{IsTold};
ghost use Rattle.cftt.specs.Moments.{IsWritten};

use cf_base::{Sink, write_all};
use cf_diag::{Refusal, no_memory_text, refusal_text, write_fault_text};
use std::alloc::Global;

// Writes the text to the error stream, whose faults are not told.
fn write_line<E: Sink>(err: &mut E, text: &[u8])
    ensures { IsWritten record { taken = E.taken err.old; faults = E.faults err.old } record { taken = E.taken err.new; faults = E.faults err.new } text.now }
{
    match write_all(err, text) {
        Ok(()) => {}
        Err(_) => {}
    }
}

/// Writes the line of the refusal to the error stream, and answers the refusal; or `NoMemory` where its line finds no memory.
/// The lines of `NoMemory` and `WriteFault` take none.
pub fn told<E: Sink>(alloc: Global, err: &mut E, refusal: Refusal) -> Refusal
    ensures kept { (result ≡ refusal) ⊎ ((result ≡ refusals.NoMemory) × (refusal ≢ refusals.WriteFault)) }
    ensures line { IsTold record { taken = E.taken err.old; faults = E.faults err.old } record { taken = E.taken err.new; faults = E.faults err.new } result }
{
    if let Refusal::WriteFault = refusal {
        write_line(err, write_fault_text());
        return Refusal::WriteFault;
    }
    match refusal_text(alloc, &refusal) {
        Ok(line) => {
            write_line(err, &line);
            refusal
        }
        Err(_) => {
            write_line(err, no_memory_text());
            Refusal::NoMemory
        }
    }
}
