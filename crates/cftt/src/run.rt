// The top call.
ghost use Rattle.std.specs.Prelude.{◌≡◌, map};
ghost use Rattle.std.specs.String.{string_bytes};
ghost use Rattle.cftt.specs.Answers.{IsAnswered, status_of};
ghost use Rattle.cftt.specs.Commands.{most_bytes};
ghost use Rattle.cftt.specs.Correct.{Correct};

use crate::telling::told;
use crate::top::Report;
use crate::writing::answer;
use cf_base::{ReadEnd, Sink, Source, read_all, write_all};
use cf_diag::Refusal;
use cf_words::{Command, WordsEnd, read_words};
use std::alloc::Global;

/// The most bytes of a source.
const MOST_SOURCE: u64 = 1_048_576;

/// The most bytes of a module.
const MOST_MODULE: u64 = 33_554_432;

// The most bytes that the input of the command may have.
fn most_bytes(command: &Command) -> u64
    ensures { result ≡ most_bytes command.now }
{
    match command {
        Command::Core { .. } | Command::Build { .. } => MOST_SOURCE,
        Command::Run { .. } => MOST_MODULE,
    }
}

// Runs the command that the words give, on `input`, and writes to `out`.
fn answered<S: Source, O: Sink>(
    alloc: Global,
    words: &[String],
    input: &mut S,
    out: &mut O,
) -> Result<Report, Refusal>
    ensures { IsAnswered (map (λ w. string_bytes w) words.now) input.old input.new
        record { left = S.left input.old; read_faults = S.faults input.old; taken = O.taken out.old; write_faults = O.faults out.old }
        record { left = S.left input.new; read_faults = S.faults input.new; taken = O.taken out.new; write_faults = O.faults out.new } result }
{
    let command = match read_words(alloc, words) {
        Ok(command) => command,
        Err(WordsEnd::Usage(i)) => return Err(Refusal::Usage(i)),
        Err(WordsEnd::NoMemory) => return Err(Refusal::NoMemory),
    };
    let bytes = match read_all(alloc, input, most_bytes(&command)) {
        Ok(bytes) => bytes,
        Err(ReadEnd::Fault) => return Err(Refusal::ReadFault),
        Err(ReadEnd::TooLong) => return Err(Refusal::TooLong),
        Err(ReadEnd::NoMemory) => return Err(Refusal::NoMemory),
    };
    let output = answer(alloc, &command, &bytes)?;
    match write_all(out, &output.bytes) {
        Ok(()) => Ok(output.report),
        Err(_) => Err(Refusal::WriteFault),
    }
}

/// Runs the command that the words give, on `input`, and writes to `out`; a refusal is told by a line on `err`.
pub fn cftt<S: Source, O: Sink, E: Sink>(
    alloc: Global,
    words: &[String],
    input: &mut S,
    out: &mut O,
    err: &mut E,
) -> Result<Report, Refusal>
    ensures { Correct (map (λ w. string_bytes w) words.now)
        record {
          input = input.old;
          ends = record { left = S.left input.old; read_faults = S.faults input.old; taken = O.taken out.old; write_faults = O.faults out.old };
          errors = record { taken = E.taken err.old; faults = E.faults err.old };
        }
        record {
          input = input.new;
          ends = record { left = S.left input.new; read_faults = S.faults input.new; taken = O.taken out.new; write_faults = O.faults out.new };
          errors = record { taken = E.taken err.new; faults = E.faults err.new };
        } result }
{
    match answered(alloc, words, input, out) {
        Ok(report) => Ok(report),
        Err(refusal) => Err(told(alloc, err, refusal)),
    }
}

/// The status that the process ends with: the report's code, 2 for `Usage`, and 1 for every other refusal.
pub fn status(end: &Result<Report, Refusal>) -> u8
    ensures { result ≡ status_of end.now }
{
    match end {
        Ok(report) => report.code,
        Err(Refusal::Usage(_)) => 2,
        Err(_) => 1,
    }
}

#[cfg(test)]
mod tests;
