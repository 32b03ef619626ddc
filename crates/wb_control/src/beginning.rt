//! How a run begins.

ghost use Rattle.std.specs.Prelude.{◌≡◌, ◌+◌, ◌≤◌, ◌++◌, length, map, Some, slice_get};
ghost use Rattle.wb_syntax.specs.declared.syntax.NumType.TheVariants.{I64};
ghost use Rattle.wb_syntax.specs.declared.syntax.Module.{Module};
ghost use Rattle.wb_syntax.specs.Syntax.{Code};
ghost use Rattle.wb_syntax.specs.Nesting.{nested};
ghost use Rattle.wb_syntax.specs.Runs.{first_config};
ghost use Rattle.wb_state.specs.Frames.{count_of, with_current};
ghost use Rattle.wb_plain.specs.Effects.{SameStore};
ghost use Rattle.wb_plain.specs.Follows.{store_of};
ghost use Rattle.wb_control.specs.Changes.{IsRoomy, SameRooms};
ghost use Rattle.wb_control.specs.Calls.{words_as, forgotten, begun, Opens};
ghost use Rattle.wb_control.specs.Advances.{Begins, FitsFrom};

use crate::calls::{add_locals, count_locals};
use crate::run::{Place, Run};
use wb_state::{Locals, Word};
use wb_syntax::{Func, FuncType};

/// Adds these numbers to the locals, for which there is room.
fn add_arguments(locals: &mut Locals, args: &[i64])
    requires { count_of locals.old + length args.now ≤ locals.old.room }
    ensures { locals.new ≡ with_current locals.old (locals.old.current ++ words_as args.now) }
{
    for number in args {
        locals.add_all(&[Word::I64(number.cast_unsigned())]);
    }
}

/// Forgets what was run, but for memory and globals.
fn forget(run: &mut Run)
    ensures { run.new ≡ forgotten run.old }
{
    run.labels.clear();
    run.callers.clear();
    run.state.operands.clear();
    run.state.locals.clear();
}

/// Enters the frame of a function that nothing called, whose first locals are these arguments.
fn open_first(run: &mut Run, index: usize, func: &Func, ty: &FuncType, args: &[i64]) -> bool
    requires room { IsRoomy run.old }
    requires forgotten { run.old ≡ forgotten run.old }
    ensures opens { Opens (begun index func.now ty.now args.now run.old) result run.old run.new }
    ensures store { SameStore run.old.state run.new.state }
    ensures room { SameRooms run.old run.new }
{
    let runs = func.locals.as_slice();
    let count = count_locals(runs).saturating_add(args.len() as u64);
    if !run.state.operands.reserve(count.saturating_add(4)) {
        return false;
    }
    add_arguments(&mut run.state.locals, args);
    add_locals(&mut run.state.locals, runs);
    run.place = Place {
        func: index,
        at: 0,
        results: ty.result.is_some(),
        labels: 0,
        bottom: 0,
    };
    true
}

/// Begins a run at a function of this index and type, in a frame of its own, whose first locals are these arguments.
/// Says whether there is room for the frame. What was run before is forgotten, but for memory and globals.
pub fn begin(run: &mut Run, index: usize, func: &Func, ty: &FuncType, args: &[i64]) -> bool
    requires { IsRoomy run.old }
    ensures begins { (m : Module) (body : Code) → slice_get m.funcs index ≡ Some func.now → nested func.now.body ≡ Some body → Begins m (first_config m 0 (record { func = func.now; type = ty.now }) args.now (store_of run.old.state) body) result run.old run.new }
    ensures fits { FitsFrom result run.new }
    ensures store { SameStore run.old.state run.new.state }
    ensures room { SameRooms run.old run.new }
{
    forget(run);
    open_first(run, index, func, ty, args)
}
