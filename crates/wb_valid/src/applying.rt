//! What is left of the operands behind an instruction that is no construct.

ghost use Rattle.std.specs.Prelude.{◌≡◌, ◌∷◌, [], IfOk};
ghost use Rattle.wb_syntax.specs.Syntax.{list_of};
ghost use Rattle.wb_valid.specs.Syntax.{I32};
ghost use Rattle.wb_valid.specs.Operands.{PopsTo, pops, put_result_on, joined, take_any};
ghost use Rattle.wb_valid.specs.Effects.{list_of_takings, behind, call, left_of, select_first, select_by, applied};

use crate::operands::Operands;
use crate::part::OutOfMemory;
use crate::rows::{Effect, Takings};
use std::alloc::Global;
use wb_syntax::{FuncType, Module, NumType};

/// Takes an operand where one is wanted; says whether it was there.
fn pop_wanted(operands: &mut Operands, wanted: Option<NumType>) -> bool
    ensures { PopsTo (pops (list_of wanted) operands.old) result operands.new }
{
    match wanted {
        None => true,
        Some(ty) => operands.pop(ty),
    }
}

/// Takes these operands; says whether they were there.
fn pop_takings(operands: &mut Operands, takings: Takings) -> bool
    ensures { PopsTo (pops (list_of_takings takings) operands.old) result operands.new }
{
    if !pop_wanted(operands, takings.first) {
        return false;
    }
    pop_wanted(operands, takings.second)
}

fn moves(
    operands: &mut Operands,
    takings: Takings,
    given: Option<NumType>,
) -> Result<bool, OutOfMemory>
    ensures { IfOk result (λ ok. PopsTo (put_result_on given (pops (list_of_takings takings) operands.old)) ok operands.new) }
{
    if !pop_takings(operands, takings) {
        return Ok(false);
    }
    operands.put_result(given)?;
    Ok(true)
}

fn jumps(alloc: Global, operands: &mut Operands, takings: Takings) -> bool
    ensures { PopsTo (behind (pops (list_of_takings takings) operands.old)) result operands.new }
{
    if !pop_takings(operands, takings) {
        return false;
    }
    *operands = Operands::anything(alloc);
    true
}

fn calls(operands: &mut Operands, ty: &FuncType) -> Result<bool, OutOfMemory>
    ensures { IfOk result (λ ok. PopsTo (call (Some ty.now) operands.old) ok operands.new) }
{
    if !operands.pop_all(ty.params.as_slice()) {
        return Ok(false);
    }
    operands.put_result(ty.result)?;
    Ok(true)
}

fn drops(operands: &mut Operands) -> bool
    ensures { PopsTo (left_of (take_any operands.old)) result operands.new }
{
    match operands.take_any() {
        None => false,
        Some(_) => true,
    }
}

/// What is known of an operand that agrees with both, where there is one.
fn joined(one: Option<NumType>, other: Option<NumType>) -> Option<Option<NumType>>
    ensures { result ≡ joined one other }
{
    match one {
        None => Some(other),
        Some(ty) => match other {
            None => Some(one),
            Some(other) => { if ty == other { Some(one) } else { None } }
        },
    }
}

/// Takes two operands of one type, and puts one of that type.
fn chooses(operands: &mut Operands) -> Result<bool, OutOfMemory>
    ensures { IfOk result (λ ok. PopsTo (select_first (take_any operands.old)) ok operands.new) }
{
    let Some(one) = operands.take_any() else {
        return Ok(false);
    };
    let Some(other) = operands.take_any() else {
        return Ok(false);
    };
    match joined(one, other) {
        None => Ok(false),
        Some(known) => {
            operands.put(known)?;
            Ok(true)
        }
    }
}

fn selects(operands: &mut Operands) -> Result<bool, OutOfMemory>
    ensures { IfOk result (λ ok. PopsTo (select_by (pops (I32 ∷ []) operands.old)) ok operands.new) }
{
    if !pop_wanted(operands, Some(NumType::I32)) {
        return Ok(false);
    }
    chooses(operands)
}

/// Changes what is known as the effect says; false where it has no typing here.
pub fn apply(
    alloc: Global,
    m: &Module,
    effect: Effect,
    operands: &mut Operands,
) -> Result<bool, OutOfMemory>
    ensures { IfOk result (λ ok. PopsTo (applied m.now.types effect operands.old) ok operands.new) }
{
    match effect {
        Effect::Moves(takings, given) => moves(operands, takings, given),
        Effect::Jumping(takings) => Ok(jumps(alloc, operands, takings)),
        Effect::Calls(index) => match m.types.get(index as usize) {
            None => Ok(false),
            Some(ty) => calls(operands, ty),
        },
        Effect::Drops => Ok(drops(operands)),
        Effect::Selects => selects(operands),
        Effect::Refused => Ok(false),
    }
}
