// From the bytes of a module to the end of its run.
ghost use Rattle.std.specs.Prelude.{◌≡◌, ◌≤◌, IfErr, IfOk};
ghost use Rattle.cf_driver.specs.Ends.{unreachable_at};
ghost use Rattle.cf_driver.specs.Executed.{IsNoModule, IsNotCallable, IsNotRun, IsValidModule, RunsTo};
ghost use Rattle.cf_driver.specs.Machines.{IsOpenedFor, answer_of};

use crate::ends::{Line, Word};
use cf_diag::Refusal;
use std::alloc::Global;
use wb_decode::{DecodeEnd, decode};
use wb_machine::{Machine, MachineEnd, OpenEnd, TrapKind};
use wb_syntax::decoded_exactly;
use wb_valid::{InvalidEnd, ValidModule, validate};

// The module that the bytes are, where they are one that is valid.
fn valid_module(alloc: Global, bytes: &[u8]) -> Result<ValidModule, Refusal>
    ensures module { IfOk result (λ m. IsValidModule bytes.now m) }
    ensures refused { IfErr result (λ r. IsNoModule bytes.now r) }
{
    let module = match decode(alloc, bytes) {
        Ok(module) => module,
        Err(DecodeEnd::Malformed(at)) => return Err(Refusal::Malformed(at)),
        Err(DecodeEnd::Outside(at, what)) => return Err(Refusal::Outside(at, what)),
        Err(DecodeEnd::NoMemory) => return Err(Refusal::NoMemory),
    };
    decoded_exactly();
    match validate(alloc, module) {
        Ok(module) => Ok(module),
        Err(InvalidEnd::Invalid(part)) => Err(Refusal::Invalid(part)),
        Err(InvalidEnd::NoMemory) => Err(Refusal::NoMemory),
    }
}

// Why `unreachable` was reached, by the status word.
fn unreachable(status: u32) -> Word
    ensures { result ≡ unreachable_at status }
{
    match status {
        1 => Word::HeapFull,
        2 => Word::Failed,
        _ => Word::Unreachable,
    }
}

// A machine of so many words for a valid module, where its `main` takes so many arguments.
fn opened(alloc: Global, m: ValidModule, words: u32, count: usize) -> Result<Machine, Refusal>
    requires least { 1 ≤ words }
    requires most { words ≤ 16777216 }
    ensures machine { IfOk result (λ machine. IsOpenedFor m words count machine) }
    ensures refused { IfErr result (λ r. IsNotCallable m count r) }
{
    let machine = match Machine::new(alloc, m, words) {
        Ok(machine) => machine,
        Err(OpenEnd::TooMuchMemory(pages)) => return Err(Refusal::TooMuchMemory(pages)),
        Err(OpenEnd::NoMemory) => return Err(Refusal::NoMemory),
    };
    let Some(wanted) = machine.main_arity() else {
        return Err(Refusal::NoMain);
    };
    let Ok(given) = u32::try_from(count) else {
        return Err(Refusal::NoMemory);
    };
    if given != wanted {
        return Err(Refusal::Arity(given, wanted));
    }
    Ok(machine)
}

// The line of an end that leaves this status word; or why the end has none.
fn answer(end: MachineEnd, status: u32, words: u32, limit: u64) -> Result<Line, Refusal>
    ensures { result ≡ answer_of end status words limit }
{
    match end {
        MachineEnd::Returned(number) => Ok(Line::Returned(number)),
        MachineEnd::Trap(TrapKind::Unreachable) => Ok(Line::Trapped(unreachable(status))),
        MachineEnd::Trap(TrapKind::DivideByZero) => Ok(Line::Trapped(Word::DivideByZero)),
        MachineEnd::Trap(TrapKind::Overflow) => Ok(Line::Trapped(Word::Overflow)),
        MachineEnd::Trap(TrapKind::OutOfBounds) => Ok(Line::Trapped(Word::OutOfBounds)),
        MachineEnd::StepLimit => Err(Refusal::StepLimit(limit)),
        MachineEnd::StackFull => Err(Refusal::StackFull(words)),
        MachineEnd::Stuck => Err(Refusal::Stuck),
        MachineEnd::NoMain => Err(Refusal::NoMain),
    }
}

/// How the run of a module's exported `main` on these arguments ends, with at most so many words on the stack, from 1 to 16,777,216, and so
/// many steps; or why the bytes are no valid module, or why its run has no such end.
pub fn executed(
    alloc: Global,
    bytes: &[u8],
    args: &[i64],
    words: u32,
    limit: u64,
) -> Result<Line, Refusal>
    requires least { 1 ≤ words }
    requires most { words ≤ 16777216 }
    ensures line { IfOk result (λ line. RunsTo bytes.now args.now words limit line) }
    ensures refused { IfErr result (λ r. IsNotRun bytes.now args.now words limit r) }
{
    let module = valid_module(alloc, bytes)?;
    let mut machine = opened(alloc, module, words, args.len())?;
    let end = machine.call_main(args, limit);
    answer(end, machine.status(), words, limit)
}
