//! Whether a function's body has a typing (the standard, 3.4.1, and its appendix, 7.3).

ghost use Rattle.std.specs.Prelude.{◌≡◌, ◌∷◌, [], IfOk, MatchBool};
ghost use Rattle.wb_syntax.specs.Typing.{context_of, IsTypedBody};
ghost use Rattle.wb_valid.specs.Syntax.{I32};
ghost use Rattle.wb_valid.specs.Operands.{pop};
ghost use Rattle.wb_valid.specs.Effects.{effect, applied};
ghost use Rattle.wb_valid.specs.Checking.{Whole, opened, step_in, closes, Steps, branching, going_on, inner};
ghost use Rattle.wb_valid.specs.Locals.{running_sums};

use crate::applying::apply;
use crate::effects::effect_of;
use crate::frames::{Frame, Kind, Step, close, open, opened, turn};
use crate::locals::running_sums;
use crate::part::OutOfMemory;
use crate::pile::Pile;
use std::alloc::Global;
use wb_syntax::syntax::Instr;
use wb_syntax::{Func, FuncType, Module, NumType};

/// Takes the operand of an if and opens its first branch.
fn open_if(
    alloc: Global,
    given: Option<NumType>,
    current: &mut Frame,
    outer: &mut Pile<Frame>,
) -> Result<Step, OutOfMemory>
    ensures { IfOk result (λ s. Steps (branching given current.old outer.old (pop I32 current.old.operands)) s (current.new ∷ outer.new)) }
{
    if !current.operands.pop(NumType::I32) {
        return Ok(Step::Refused);
    }
    open(alloc, Kind::FirstBranch, given, current, outer)
}

/// An instruction that is no construct.
fn plain(
    alloc: Global,
    m: &Module,
    func: &Func,
    ty: &FuncType,
    sums: &[u64],
    current: &mut Frame,
    outer: &Pile<Frame>,
    instr: &Instr,
) -> Result<Step, OutOfMemory>
    requires { sums.now ≡ running_sums 0 func.now.locals }
    ensures { let base = context_of m.now func.now ty.now in IfOk result (λ s. Steps (going_on current.old outer.now (applied base.types (effect (inner base (current.old ∷ outer.now)) instr.now) current.old.operands)) s (current.new ∷ outer.now)) }
{
    let effect = effect_of(m, func, ty, sums, current, outer, instr);
    if apply(alloc, m, effect, &mut current.operands)? {
        Ok(Step::Inside)
    } else {
        Ok(Step::Refused)
    }
}

/// Goes over one instruction of the body.
fn step(
    alloc: Global,
    m: &Module,
    func: &Func,
    ty: &FuncType,
    sums: &[u64],
    current: &mut Frame,
    outer: &mut Pile<Frame>,
    instr: &Instr,
) -> Result<Step, OutOfMemory>
    requires { sums.now ≡ running_sums 0 func.now.locals }
    ensures { IfOk result (λ s. Steps (step_in (context_of m.now func.now ty.now) current.old outer.old instr.now) s (current.new ∷ outer.new)) }
{
    match instr {
        Instr::Block(given) => open(alloc, Kind::Plain, *given, current, outer),
        Instr::Loop(given) => open(alloc, Kind::Repeated, *given, current, outer),
        Instr::If(given) => open_if(alloc, *given, current, outer),
        Instr::Else => Ok(turn(alloc, current, outer)),
        Instr::End => close(current, outer),
        _ => plain(alloc, m, func, ty, sums, current, outer, instr),
    }
}

/// Whether the steps over the body lead to its end and no further.
fn closes(
    alloc: Global,
    m: &Module,
    func: &Func,
    ty: &FuncType,
    sums: &[u64],
) -> Result<bool, OutOfMemory>
    requires { sums.now ≡ running_sums 0 func.now.locals }
    ensures { IfOk result (λ b. b ≡ closes (context_of m.now func.now ty.now) (opened Whole ty.now.result ∷ []) func.now.body) }
{
    let body = func.body.as_slice();
    let mut current = opened(alloc, Kind::Plain, ty.result);
    let mut outer = Pile::new(alloc);
    for (at, instr) in body.iter().enumerate() {
        match step(alloc, m, func, ty, sums, &mut current, &mut outer, instr)? {
            Step::Inside => {}
            Step::Closed => return Ok(at + 1 == body.len()),
            Step::Refused => return Ok(false),
        }
    }
    Ok(false)
}

/// Whether the body of a function of the module has a typing, as the code of a body with one end that is its last.
///
/// # Errors
///
/// `OutOfMemory` where memory runs out or there are 2^64 locals or more.
pub fn body_is_typed(alloc: Global, m: &Module, func: &Func) -> Result<bool, OutOfMemory>
    ensures { IfOk result (λ b. MatchBool b (IsTypedBody m.now func.now) (IsTypedBody m.now func.now → ⊥)) }
{
    match m.types.get(func.ty as usize) {
        None => Ok(false),
        Some(ty) => {
            let sums = running_sums(alloc, func.locals.as_slice())?;
            closes(alloc, m, func, ty, sums.as_slice())
        }
    }
}
