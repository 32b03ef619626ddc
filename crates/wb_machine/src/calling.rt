//! A run of `main`.

ghost use Rattle.std.specs.Prelude.{◌≡◌};
ghost use Rattle.wb_syntax.specs.Execute.{TheStore, Config};
ghost use Rattle.wb_syntax.specs.Runs.{returned, run_main, runs};
ghost use Rattle.wb_plain.specs.Follows.{store_of, pages_of, length_of};
ghost use Rattle.wb_control.specs.Changes.{IsRoomy, Fits, SameRooms, results_of};
ghost use Rattle.wb_control.specs.Stands.{AllNested, AllLead, Stands};
ghost use Rattle.wb_machine.specs.Ends.{EndsAs};
ghost use Rattle.wb_machine.specs.Steps.{FindsBody, Closes};

use crate::ends::MachineEnd;
use crate::entry::find_main;
use sqlite_items::Items;
use wb_code::Jump;
use wb_control::{Flow, Run, advance, begin, has_step, settle};
use wb_state::Word;
use wb_syntax::{Instr, Module};

/// The end of a run whose first frame is left with this result.
fn returned(word: Option<Word>) -> MachineEnd
    ensures { (first s : TheStore) → EndsAs first (returned (results_of word) s) result s }
{
    match word {
        None => MachineEnd::Stuck,
        Some(Word::I32(bits)) => MachineEnd::Returned(i64::from(bits.cast_signed())),
        Some(Word::I64(bits)) => MachineEnd::Returned(bits.cast_signed()),
    }
}

/// How a run ends that does not go on, and whose first frame left this result, where it was left.
#[cold]
#[inline(never)]
fn end_of(flow: Flow, word: Option<Word>) -> MachineEnd
    ensures { (first s : TheStore) → Closes first flow (results_of word) s result }
{
    match flow {
        Flow::Full => MachineEnd::StackFull,
        Flow::Finishes => returned(word),
        Flow::Traps(kind) => MachineEnd::Trap(kind),
        Flow::Stuck | Flow::Settles | Flow::Goes | Flow::Moves => MachineEnd::Stuck,
    }
}

/// How a run ends that may make no step more.
fn stop(run: &mut Run, m: &Module, jumps: &[Items<Jump>]) -> MachineEnd
    requires { Fits run.old }
    ensures ends { (first : TheStore) (c : Config) → AllNested m.now → AllLead m.now jumps.now → Stands m.now run.old c → EndsAs first (runs m.now (pages_of run.old.state.memory) run.old.state.operands.room 0 c) result (store_of run.new.state) }
    ensures size { length_of run.new.state.memory ≡ length_of run.old.state.memory }
    ensures room { SameRooms run.old run.new }
{
    if !settle(run, m) {
        return MachineEnd::StackFull;
    }
    if has_step(run, m, jumps) {
        MachineEnd::StepLimit
    } else {
        MachineEnd::Stuck
    }
}

/// The body of a function.
fn body_of(m: &Module, func: usize) -> Option<&[Instr]>
    ensures { FindsBody m.now func result }
{
    match m.funcs.get(func) {
        None => None,
        Some(func) => Some(func.body.as_slice()),
    }
}

/// Makes at most so many steps, and says how the run ends.
fn steps(run: &mut Run, m: &Module, jumps: &[Items<Jump>], limit: u64) -> MachineEnd
    requires { Fits run.old }
    ensures ends { (first : TheStore) (c : Config) → AllNested m.now → AllLead m.now jumps.now → Stands m.now run.old c → EndsAs first (runs m.now (pages_of run.old.state.memory) run.old.state.operands.room limit c) result (store_of run.new.state) }
    ensures size { length_of run.new.state.memory ≡ length_of run.old.state.memory }
    ensures room { SameRooms run.old run.new }
{
    let Some(mut body) = body_of(m, run.place.func) else {
        return MachineEnd::Stuck;
    };
    let mut left = limit;
    while left > 0 {
        match advance(run, m, jumps, body) {
            Flow::Settles => {}
            Flow::Goes => left -= 1,
            Flow::Moves => {
                left -= 1;
                let Some(other) = body_of(m, run.place.func) else {
                    return MachineEnd::Stuck;
                };
                body = other;
            }
            flow => return end_of(flow, run.result),
        }
    }
    stop(run, m, jumps)
}

/// Runs `main` on these arguments.
pub(crate) fn call(
    run: &mut Run,
    m: &Module,
    jumps: &[Items<Jump>],
    args: &[i64],
    limit: u64,
) -> MachineEnd
    requires { IsRoomy run.old }
    ensures ends { AllNested m.now → AllLead m.now jumps.now → EndsAs (store_of run.old.state) (run_main m.now (pages_of run.old.state.memory) (store_of run.old.state) args.now run.old.state.operands.room limit) result (store_of run.new.state) }
    ensures size { length_of run.new.state.memory ≡ length_of run.old.state.memory }
    ensures room { SameRooms run.old run.new }
{
    let Some(main) = find_main(m) else {
        return MachineEnd::NoMain;
    };
    if !begin(run, main.index, main.func, main.ty, args) {
        return MachineEnd::StackFull;
    }
    steps(run, m, jumps, limit)
}
