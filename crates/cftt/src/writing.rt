// What a command writes for its input.
ghost use Rattle.std.specs.Prelude.{◌≡◌, ◌≤◌, IfErr, IfOk, length};
ghost use Rattle.cf_diag.specs.declared.refusal.Refusal.TheVariants as refusals;
ghost use Rattle.cf_words.specs.Lines.{IsInRange};
ghost use Rattle.cf_driver.specs.Ends.{line_text};
ghost use Rattle.cftt.specs.Commands.{Refuses, Writes, most_bytes, ran, written};

use crate::top::Report;
use cf_diag::Refusal;
use cf_driver::{Line, built, core, executed};
use cf_words::Command;
use std::alloc::Global;

/// What a command writes, and what it reports.
#[derive(Drop)]
pub struct Output {
    /// The bytes.
    pub bytes: Vec<u8>,
    /// The report.
    pub report: Report,
}

// What a command that runs nothing writes.
fn written(bytes: Vec<u8>) -> Output
    ensures bytes { result.bytes ≡ bytes }
    ensures report { result.report ≡ written }
{
    Output {
        bytes,
        report: Report { code: 0, calls: 0 },
    }
}

// The line of the end of a module's run.
fn ran(alloc: Global, end: Line) -> Result<Output, Refusal>
    ensures text { IfOk result (λ output. output.bytes.items ≡ line_text end) }
    ensures report { IfOk result (λ output. output.report ≡ ran (line_text end)) }
    ensures refused { IfErr result (λ refusal. refusal ≡ refusals.NoMemory) }
{
    match end.text(alloc) {
        Ok(bytes) => Ok(Output {
            bytes,
            report: Report {
                code: end.code(),
                calls: 0,
            },
        }),
        Err(_) => Err(Refusal::NoMemory),
    }
}

/// What the command writes for its input, and what it reports; or why it refuses the input.
pub fn answer(alloc: Global, command: &Command, input: &[u8]) -> Result<Output, Refusal>
    requires short { length input.now ≤ most_bytes command.now }
    requires range { IsInRange command.now }
    ensures writes { IfOk result (λ output. Writes command.now input.now output.report output.bytes.items) }
    ensures refused { IfErr result (λ refusal. Refuses command.now input.now refusal) }
{
    match command {
        Command::Core { .. } => Ok(written(core(alloc, input)?)),
        Command::Build { .. } => Ok(written(built(alloc, input)?)),
        Command::Run { words, limit, args } => {
            let end = executed(alloc, input, args.as_slice(), *words, *limit)?;
            ran(alloc, end)
        }
    }
}
