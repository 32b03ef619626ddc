//! Branches, and the ends of functions.

ghost use Rattle.std.specs.Prelude.{◌≡◌, ◌+◌, ◌<◌, length};
ghost use Rattle.wb_control.specs.Changes.{Fits, Comes, HasRoom, others_in, TakesResult, popped, results_of, with_results, own_labels, back_in, at_label, returned, finished, ended, branched};

use crate::constructs::leave;
use crate::run::{Caller, Flow, Label, Run};
use wb_state::{Operands, Word};

/// Takes the topmost word where a result is wanted; None where there is none.
fn take_result(operands: &mut Operands, wanted: bool) -> Option<Option<Word>>
    ensures takes { TakesResult (popped wanted operands.old) result operands.new }
    ensures room { operands.new.room ≡ operands.old.room }
{
    if !wanted {
        return Some(None);
    }
    match operands.take_any() {
        None => None,
        Some(word) => Some(Some(word)),
    }
}

/// Puts a result on top, where there is one; says whether there was room for it.
fn put_result(run: &mut Run, carried: Option<Word>) -> bool
    requires { Fits run.old }
    ensures { HasRoom (with_results (results_of carried) run.old) result run.old run.new }
{
    match carried {
        None => true,
        Some(word) => run.state.operands.put(word),
    }
}

/// How many labels the frame that is run has.
fn own_labels(run: &Run) -> usize
    ensures { result ≡ own_labels run.now }
{
    run.labels.len().saturating_sub(run.place.labels)
}

/// Goes back to the frame that waited, which was taken off the pile.
fn go_back(run: &mut Run, caller: Caller)
    requires words { run.old.state.operands.most + (others_in run.old + 4) ≡ run.old.state.operands.room }
    ensures { run.new ≡ back_in caller run.old.callers.items run.old.state.operands run.old }
{
    let height = run.place.bottom.min(run.state.operands.height());
    run.state.operands.cut(height, caller.floor.min(height));
    let labels = own_labels(run);
    let locals = run.state.locals.count();
    run.state.operands.release(labels);
    run.state.operands.release(locals);
    run.state.operands.release(4);
    run.labels.keep(run.place.labels);
    let base = caller.base.min(run.state.locals.base());
    run.state.locals.leave(base);
    run.place = caller.place;
}

/// Leaves the frame that is run, with its result.
pub(crate) fn leave_frame(run: &mut Run) -> Flow
    requires { Fits run.old }
    ensures { Comes result (returned run.old) run.old run.new }
{
    let Some(result) = take_result(&mut run.state.operands, run.place.results) else {
        return Flow::Stuck;
    };
    match run.callers.pop() {
        None => {
            run.result = result;
            Flow::Finishes
        }
        Some(caller) => {
            go_back(run, caller);
            if put_result(run, result) {
                Flow::Moves
            } else {
                Flow::Full
            }
        }
    }
}

/// Leaves the frame that is run at the end of its body, where exactly the result is there.
fn finish(run: &mut Run) -> Flow
    requires { Fits run.old }
    ensures { Comes result (finished run.old) run.old run.new }
{
    let above = run.state.operands.height() - run.state.operands.floor();
    if above != usize::from(run.place.results) {
        return Flow::Stuck;
    }
    leave_frame(run)
}

/// An end, of the innermost construct or of the body.
pub(crate) fn end(run: &mut Run, next: usize) -> Flow
    requires { Fits run.old }
    ensures { Comes result (ended next run.old) run.old run.new }
{
    if own_labels(run) == 0 {
        finish(run)
    } else {
        leave(run, next)
    }
}

/// Goes to a label of the frame that is run, which is there.
fn go_to(run: &mut Run, index: usize, label: Label)
    requires words { run.old.state.operands.most + others_in run.old ≡ run.old.state.operands.room }
    requires index { index < length run.old.labels.items }
    ensures { run.new ≡ at_label index label run.old.state.operands run.old }
{
    let height = label.height.min(run.state.operands.height());
    let count = run.labels.len();
    let freed = index + 1;
    run.state.operands.cut(height, label.floor.min(height));
    run.state.operands.release(freed);
    run.labels.keep(count - freed);
    run.place.at = label.target;
}

/// Branches to the label at this depth; past all labels of the frame that is a return.
pub(crate) fn branch(run: &mut Run, index: usize) -> Flow
    requires { Fits run.old }
    ensures { Comes result (branched index run.old) run.old run.new }
{
    let own = own_labels(run);
    if index == own {
        return leave_frame(run);
    }
    if index > own {
        return Flow::Stuck;
    }
    let Some(label) = run.labels.get(index) else {
        return Flow::Stuck;
    };
    let Some(carried) = take_result(&mut run.state.operands, label.carries) else {
        return Flow::Stuck;
    };
    go_to(run, index, label);
    if put_result(run, carried) {
        Flow::Goes
    } else {
        Flow::Full
    }
}
