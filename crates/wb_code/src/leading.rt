//! Where each construct of a body leads.

ghost use Rattle.std.specs.Prelude.{IfOk, ◌+◌, ◌<◌, ◌^◌};
ghost use Rattle.wb_code.specs.Jumps.{AreJumps};
ghost use Rattle.wb_code.specs.Passing.{Passes, IsTurned, IsTaken};

use crate::pile::Pile;
use sqlite_items::Items;
use std::alloc::{AllocError, AllocFailed, Global};
use wb_syntax::syntax::Instr;

/// Memory ran out.
#[derive(Clone, Copy, Debug, PartialEq, Eq)]
pub struct NoMemory;

impl From<AllocError> for NoMemory {
    fn from(_error: AllocError) -> NoMemory {
        NoMemory
    }
}

impl<T: Drop> From<AllocFailed<T>> for NoMemory {
    fn from(_error: AllocFailed<T>) -> NoMemory {
        NoMemory
    }
}

/// Where a construct leads, as indices in its body.
#[derive(Clone, Copy, Debug, PartialEq, Eq)]
pub struct Jump {
    /// The place behind the end of the construct.
    pub past: usize,
    /// Where an `if` goes on if its condition is zero: behind its `Else`, or at its `End` where it has none.
    pub other: usize,
}

/// The jump of an instruction that has none.
const NOWHERE: Jump = Jump { past: 0, other: 0 };

/// Goes back over an else: the first branch of the innermost construct that is open stands before it.
fn turn(outer: &mut Pile<Jump>, at: usize) -> Result<Jump, NoMemory>
    requires { at + 1 < 2 ^ 64 }
    ensures { IfOk result (λ j. IsTurned at outer.old outer.new j) }
{
    match outer.pop() {
        None => Ok(NOWHERE),
        Some(inner) => {
            outer.push(Jump {
                past: inner.past,
                other: at + 1,
            })?;
            Ok(inner)
        }
    }
}

/// Goes back over the beginning of a construct.
fn take(outer: &mut Pile<Jump>) -> Jump
    ensures { IsTaken outer.old outer.new result }
{
    match outer.pop() {
        None => NOWHERE,
        Some(inner) => inner,
    }
}

/// Goes back over one instruction. `outer` has where each construct leads whose end stands behind the instruction and
/// whose beginning does not, the innermost on top.
fn pass(outer: &mut Pile<Jump>, at: usize, instr: &Instr) -> Result<Jump, NoMemory>
    requires { at + 1 < 2 ^ 64 }
    ensures { IfOk result (λ j. Passes at instr.now outer.old outer.new j) }
{
    match instr {
        Instr::End => {
            outer.push(Jump {
                past: at + 1,
                other: at,
            })?;
            Ok(NOWHERE)
        }
        Instr::Else => turn(outer, at),
        Instr::Block(_) | Instr::Loop(_) | Instr::If(_) => Ok(take(outer)),
        _ => Ok(NOWHERE),
    }
}

/// For each instruction of a body where its construct leads: of a block or loop the place behind its end, of an `if`
/// that place and the one of its second branch, of an `Else` the place behind the end of the `if`. Of other instructions
/// the jump says nothing.
///
/// # Errors
///
/// `NoMemory` where memory runs out.
pub fn jumps(alloc: Global, body: &[Instr]) -> Result<Items<Jump>, NoMemory>
    ensures { IfOk result (λ js. AreJumps body.now js) }
{
    let mut found = Pile::new(alloc);
    let mut outer = Pile::new(alloc);
    let mut at = body.len();
    while at > 0 {
        at -= 1;
        let jump = pass(&mut outer, at, &body[at])?;
        found.push(jump)?;
    }
    Ok(found.in_order())
}
