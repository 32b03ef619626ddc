//! Entering and leaving constructs.

ghost use Rattle.std.specs.Prelude.{◌≡◌};
ghost use Rattle.wb_control.specs.Changes.{Fits, Comes, Leads, entered, left_label};

use crate::run::{Flow, Label, Run};

/// Enters a construct whose label leads to `target`, and goes on at `next`.
pub(crate) fn enter(run: &mut Run, carries: bool, target: usize, next: usize) -> Flow
    requires { Fits run.old }
    ensures { Comes result (Leads (entered carries target next run.old)) run.old run.new }
{
    let height = run.state.operands.height();
    let floor = run.state.operands.floor();
    if !run.state.operands.reserve(1) {
        return Flow::Full;
    }
    run.state.operands.raise();
    run.labels.push(Label {
        carries,
        target,
        height,
        floor,
    });
    run.place.at = next;
    Flow::Goes
}

/// Leaves the innermost construct at its end, and goes on at `next`.
pub(crate) fn leave(run: &mut Run, next: usize) -> Flow
    requires { Fits run.old }
    ensures { Comes result (left_label next run.old run.old.labels.items) run.old run.new }
{
    match run.labels.pop() {
        None => Flow::Stuck,
        Some(label) => {
            let height = run.state.operands.height();
            run.state.operands.cut(height, label.floor.min(height));
            run.state.operands.release(1);
            run.place.at = next;
            Flow::Goes
        }
    }
}
