//! Constructs and branches that depend on a jump or on a number.

ghost use Rattle.std.specs.Prelude.{◌≡◌};
ghost use Rattle.wb_syntax.specs.declared.syntax.NumType.TheVariants.{I32};
ghost use Rattle.wb_syntax.specs.Execute.{chosen};
ghost use Rattle.wb_state.specs.Stack.{take_word};
ghost use Rattle.wb_control.specs.Changes.{Fits, Comes};
ghost use Rattle.wb_control.specs.Steps.{jump_of, blocked, passed_over, tested, branched_if, branched_by};

use crate::branches::branch;
use crate::constructs::{enter, leave};
use crate::run::{Flow, Run};
use sqlite_items::Items;
use wb_code::Jump;
use wb_syntax::NumType;

/// The jump of the instruction at a place.
fn jump_at(jumps: &[Items<Jump>], func: usize, at: usize) -> Option<Jump>
    ensures { result ≡ jump_of jumps.now func at }
{
    match jumps.get(func) {
        None => None,
        Some(body) => body.get(at).copied(),
    }
}

/// Enters a block.
pub(crate) fn block(run: &mut Run, jumps: &[Items<Jump>], ty: Option<NumType>, next: usize) -> Flow
    requires { Fits run.old }
    ensures { Comes result (blocked ty next run.old (jump_of jumps.now run.old.place.func run.old.place.at)) run.old run.new }
{
    match jump_at(jumps, run.place.func, run.place.at) {
        None => Flow::Stuck,
        Some(jump) => enter(run, ty.is_some(), jump.past, next),
    }
}

/// Leaves the first branch of an if.
pub(crate) fn pass_over(run: &mut Run, jumps: &[Items<Jump>]) -> Flow
    requires { Fits run.old }
    ensures { Comes result (passed_over run.old (jump_of jumps.now run.old.place.func run.old.place.at)) run.old run.new }
{
    match jump_at(jumps, run.place.func, run.place.at) {
        None => Flow::Stuck,
        Some(jump) => leave(run, jump.past),
    }
}

/// Enters a branch of an if, by the topmost number.
pub(crate) fn test(run: &mut Run, jumps: &[Items<Jump>], ty: Option<NumType>, next: usize) -> Flow
    requires { Fits run.old }
    ensures { Comes result (tested ty next run.old (jump_of jumps.now run.old.place.func run.old.place.at)) run.old run.new }
{
    let Some(jump) = jump_at(jumps, run.place.func, run.place.at) else {
        return Flow::Stuck;
    };
    let Some(condition) = run.state.operands.take(NumType::I32) else {
        return Flow::Stuck;
    };
    if condition == 0 {
        enter(run, ty.is_some(), jump.past, jump.other)
    } else {
        enter(run, ty.is_some(), jump.past, next)
    }
}

/// Branches where the topmost number is not zero.
#[inline(always)]
pub(crate) fn branch_if(run: &mut Run, index: u32, next: usize) -> Flow
    requires { Fits run.old }
    ensures { Comes result (branched_if index next run.old (take_word I32 run.old.state.operands)) run.old run.new }
{
    let Some(condition) = run.state.operands.take(NumType::I32) else {
        return Flow::Stuck;
    };
    if condition == 0 {
        run.place.at = next;
        Flow::Goes
    } else {
        branch(run, index as usize)
    }
}

/// The label of a table at an index, or else the last one.
fn chosen_label(labels: &[u32], last: u32, at: u64) -> u32
    ensures { result ≡ chosen labels.now last at }
{
    match labels.get(at as usize) {
        None => last,
        Some(label) => *label,
    }
}

/// Branches by a table, at the topmost number.
pub(crate) fn branch_by(run: &mut Run, labels: &[u32], last: u32) -> Flow
    requires { Fits run.old }
    ensures { Comes result (branched_by labels.now last run.old (take_word I32 run.old.state.operands)) run.old run.new }
{
    let Some(at) = run.state.operands.take(NumType::I32) else {
        return Flow::Stuck;
    };
    branch(run, chosen_label(labels, last, at) as usize)
}
