//! Calls.

ghost use Rattle.std.specs.Prelude.{◌≡◌, ◌+◌, ◌-◌, ◌≤◌, ◌^◌, ◌++◌, length, IsTrue, min, map, reverse, take};
ghost use Rattle.wb_syntax.specs.Syntax.{expanded};
ghost use Rattle.wb_syntax.specs.Execute.{same_type, have_types, zeros};
ghost use Rattle.wb_state.specs.Words.{seen, type_of};
ghost use Rattle.wb_state.specs.Frames.{count_of, with_current};
ghost use Rattle.wb_control.specs.Changes.{Fits, Comes, Leads};
ghost use Rattle.wb_control.specs.Calls.{opened, called, passes};

use crate::run::{Caller, Flow, Place, Run};
use wb_state::{Locals, Operands, Word};
use wb_syntax::{Func, FuncType, LocalRun, Module, NumType};

/// Whether a word is of this type.
fn is_of(word: Word, ty: NumType) -> bool
    ensures { result ≡ same_type ty (type_of (seen word)) }
{
    match word {
        Word::I32(_) => match ty {
            NumType::I32 => true,
            NumType::I64 => false,
        },
        Word::I64(_) => match ty {
            NumType::I32 => false,
            NumType::I64 => true,
        },
    }
}

/// Whether these words have these types.
#[tactic(auto, using(crate::proofs::Arguments::types_more))]
fn have_types(words: &[Word], types: &[NumType]) -> bool
    ensures { result ≡ have_types types.now (map seen words.now) }
{
    let count = types.len();
    if words.len() != count {
        return false;
    }
    for i in 0..count {
        if !is_of(words[i], types[i]) {
            return false;
        }
    }
    true
}

/// Whether the topmost operands are arguments of these types.
#[tactic(auto, using(crate::proofs::Arguments::too_few))]
fn has_arguments(operands: &Operands, types: &[NumType]) -> bool
    ensures { result ≡ passes types.now operands.now }
{
    match operands.arguments(types.len()) {
        None => false,
        Some(words) => have_types(words, types),
    }
}

/// How many locals these runs have, or the greatest number where there are more.
#[tactic(auto, using(crate::proofs::Arguments::count_more))]
pub(crate) fn count_locals(runs: &[LocalRun]) -> u64
    ensures { result ≡ min (length (expanded runs.now)) (2 ^ 64 - 1) }
{
    let mut count: u64 = 0;
    for run in runs {
        count = count.saturating_add(u64::from(run.count));
    }
    count
}

/// Adds the locals of these runs, all zero, for which there is room.
#[tactic(auto, using(crate::proofs::Arguments::zeros_more, crate::proofs::Arguments::count_more))]
pub(crate) fn add_locals(locals: &mut Locals, runs: &[LocalRun])
    requires { count_of locals.old + length (expanded runs.now) ≤ locals.old.room }
    ensures { locals.new ≡ with_current locals.old (locals.old.current ++ zeros (expanded runs.now)) }
{
    for run in runs {
        locals.add_zeros(run.ty, run.count as usize);
    }
}

/// Enters the frame of a function whose arguments are on top, and goes on at `next` behind it.
fn open_frame(run: &mut Run, index: u32, func: &Func, ty: &FuncType, next: usize) -> Flow
    requires fits { Fits run.old }
    requires arguments { IsTrue (passes ty.now.params run.old.state.operands) }
    ensures { Comes result (Leads (opened index next func.now ty.now run.old)) run.old run.new }
{
    let runs = func.locals.as_slice();
    let count = ty.params.len();
    if !run
        .state
        .operands
        .reserve(count_locals(runs).saturating_add(4))
    {
        return Flow::Full;
    }
    let floor = run.state.operands.floor();
    let base = run.state.locals.base();
    let bottom = run.state.operands.height().saturating_sub(count);
    run.state.locals.enter();
    let Some(words) = run.state.operands.arguments(count) else {
        return Flow::Stuck;
    };
    run.state.locals.add_all(words);
    run.state.operands.cut(bottom, bottom);
    run.state.operands.reserve(count as u64);
    add_locals(&mut run.state.locals, runs);
    let place = Place {
        at: next,
        ..run.place
    };
    run.callers.push(Caller { place, floor, base });
    run.place = Place {
        func: index as usize,
        at: 0,
        results: ty.result.is_some(),
        labels: run.labels.len(),
        bottom,
    };
    Flow::Moves
}

/// Calls a function, and goes on at `next` behind it.
pub(crate) fn call(run: &mut Run, m: &Module, index: u32, next: usize) -> Flow
    requires { Fits run.old }
    ensures { Comes result (called m.now index next run.old) run.old run.new }
{
    let Some(func) = m.funcs.get(index as usize) else {
        return Flow::Stuck;
    };
    let Some(ty) = m.types.get(func.ty as usize) else {
        return Flow::Stuck;
    };
    if !has_arguments(&run.state.operands, ty.params.as_slice()) {
        return Flow::Stuck;
    }
    open_frame(run, index, func, ty, next)
}
