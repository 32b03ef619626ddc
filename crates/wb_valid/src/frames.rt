//! The constructs that are open at a place of a body.

ghost use Rattle.std.specs.Prelude.{◌≡◌, ◌∷◌, map, slice_get, IfOk};
ghost use Rattle.wb_valid.specs.Checking.{Inside, opened, may_end, ended, turned, label, Steps};

use crate::operands::Operands;
use crate::part::OutOfMemory;
use crate::pile::Pile;
use std::alloc::Global;
use std::mem;
use wb_syntax::NumType;

/// What a construct is.
#[derive(Clone, Copy, Debug, PartialEq, Eq)]
pub enum Kind {
    /// A body, a block or the second branch of an if.
    Plain,
    /// A loop: a branch to it goes to its beginning.
    Repeated,
    /// The first branch of an if.
    FirstBranch,
}

/// A construct that is open.
#[derive(Drop)]
pub struct Frame {
    pub kind: Kind,
    pub result: Option<NumType>,
    pub operands: Operands,
}

/// Where an instruction leads.
#[derive(Clone, Copy, Debug, PartialEq, Eq)]
pub enum Step {
    /// The body goes on.
    Inside,
    /// The body is closed.
    Closed,
    /// The instruction has no typing.
    Refused,
}

/// A construct that begins. Takes no memory.
pub fn opened(alloc: Global, kind: Kind, given: Option<NumType>) -> Frame
    ensures { result ≡ opened kind given }
{
    Frame {
        kind,
        result: given,
        operands: Operands::empty(alloc),
    }
}

/// What a branch to the construct carries.
fn label(frame: &Frame) -> Option<NumType>
    ensures { result ≡ label frame.now }
{
    match frame.kind {
        Kind::Repeated => None,
        Kind::Plain | Kind::FirstBranch => frame.result,
    }
}

/// What a branch to the label of this index carries, where there is one: 0 is the innermost.
pub fn label_at(current: &Frame, outer: &Pile<Frame>, index: u32) -> Option<Option<NumType>>
    ensures { result ≡ slice_get (map label (current.now ∷ outer.now)) index }
{
    if index == 0 {
        return Some(label(current));
    }
    match outer.get(index as usize - 1) {
        None => None,
        Some(frame) => Some(label(frame)),
    }
}

/// Opens a construct.
pub fn open(
    alloc: Global,
    kind: Kind,
    given: Option<NumType>,
    current: &mut Frame,
    outer: &mut Pile<Frame>,
) -> Result<Step, OutOfMemory>
    ensures { IfOk result (λ s. (s ≡ Inside) × (current.new ≡ opened kind given) × (outer.new ≡ current.old ∷ outer.old)) }
{
    let around = mem::replace(current, opened(alloc, kind, given));
    outer.push(around)?;
    Ok(Step::Inside)
}

/// Goes from the first branch of an if to the second.
pub fn turn(alloc: Global, current: &mut Frame, outer: &Pile<Frame>) -> Step
    ensures { Steps (turned current.old.kind current.old outer.now) result (current.new ∷ outer.now) }
{
    match current.kind {
        Kind::Plain | Kind::Repeated => Step::Refused,
        Kind::FirstBranch => {
            if !current.operands.is_finished(current.result) {
                return Step::Refused;
            }
            *current = opened(alloc, Kind::Plain, current.result);
            Step::Inside
        }
    }
}

/// Whether a construct may end at an end: an if with a result may not.
fn may_end(kind: Kind, given: Option<NumType>) -> bool
    ensures { result ≡ may_end kind given }
{
    match kind {
        Kind::Plain | Kind::Repeated => true,
        Kind::FirstBranch => given.is_none(),
    }
}

/// Closes the innermost construct, or the body.
pub fn close(current: &mut Frame, outer: &mut Pile<Frame>) -> Result<Step, OutOfMemory>
    ensures { IfOk result (λ s. Steps (ended current.old outer.old) s (current.new ∷ outer.new)) }
{
    let given = current.result;
    if !current.operands.is_finished(given) {
        return Ok(Step::Refused);
    }
    if !may_end(current.kind, given) {
        return Ok(Step::Refused);
    }
    match outer.pop() {
        None => Ok(Step::Closed),
        Some(around) => {
            *current = around;
            current.operands.put_result(given)?;
            Ok(Step::Inside)
        }
    }
}
