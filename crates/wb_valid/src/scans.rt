//! The parts of a module, kind by kind: the first that is not valid.

ghost use Rattle.std.specs.Prelude.{◌≡◌, ◌<◌, IfOk, IsTrue, ◌↔◌};
ghost use Rattle.wb_syntax.specs.Typing.{FuncTypeOf, Memories, GlobalInit, Body, IsValid};
ghost use Rattle.wb_valid.specs.Scans.{Finds, constant_type, is_end, is_constant, are_limits, is_greatest, FindsLimits};

use crate::body::body_is_typed;
use crate::part::OutOfMemory;
use std::alloc::Global;
use wb_syntax::syntax::Instr;
use wb_syntax::{Limits, Module, NumType};

/// The first function whose type is not there.
pub fn func_type(m: &Module) -> Option<usize>
    ensures { Finds m.now FuncTypeOf result }
{
    let count = m.types.len();
    for (at, func) in m.funcs.as_slice().iter().enumerate() {
        if func.ty as usize >= count {
            return Some(at);
        }
    }
    None
}

/// Whether there is at most one memory.
pub fn memories_are_few(m: &Module) -> bool
    ensures { IsTrue result ↔ IsValid m.now Memories }
{
    m.memories.len() <= 1
}

/// Whether a greatest size is in order.
fn is_greatest(least: u32, greatest: Option<u32>) -> bool
    ensures { result ≡ is_greatest least greatest }
{
    match greatest {
        None => true,
        Some(greatest) => least <= greatest && greatest <= 0x1_0000,
    }
}

/// Whether the sizes of a memory are in their bounds and in order.
fn are_limits(limits: Limits) -> bool
    ensures { result ≡ are_limits limits }
{
    limits.min <= 0x1_0000 && is_greatest(limits.min, limits.max)
}

/// The first memory whose sizes are wrong.
pub fn memory_limits(m: &Module) -> Option<usize>
    ensures { FindsLimits m.now result }
{
    for (at, limits) in m.memories.as_slice().iter().enumerate() {
        if !are_limits(*limits) {
            return Some(at);
        }
    }
    None
}

/// The type of a constant instruction.
fn constant_type(instr: &Instr) -> Option<NumType>
    ensures { result ≡ constant_type instr.now }
{
    match instr {
        Instr::I32Const(_) => Some(NumType::I32),
        Instr::I64Const(_) => Some(NumType::I64),
        _ => None,
    }
}

fn is_end(instr: &Instr) -> bool
    ensures { result ≡ is_end instr.now }
{
    match instr {
        Instr::End => true,
        _ => false,
    }
}

/// Whether an initial value is one constant of the type and an end.
fn is_constant(ty: NumType, init: &[Instr]) -> bool
    ensures { result ≡ is_constant ty init.now }
{
    if init.len() != 2 {
        return false;
    }
    match constant_type(&init[0]) {
        None => false,
        Some(given) => ty == given && is_end(&init[1]),
    }
}

/// The first global whose initial value is no constant of its type.
pub fn global_init(m: &Module) -> Option<usize>
    ensures { Finds m.now GlobalInit result }
{
    for (at, global) in m.globals.as_slice().iter().enumerate() {
        if !is_constant(global.ty, global.init.as_slice()) {
            return Some(at);
        }
    }
    None
}

/// The first function whose body has no typing.
pub fn body(alloc: Global, m: &Module) -> Result<Option<usize>, OutOfMemory>
    ensures { IfOk result (λ found. Finds m.now Body found) }
{
    for (at, func) in m.funcs.as_slice().iter().enumerate() {
        if !body_is_typed(alloc, m, func)? {
            return Ok(Some(at));
        }
    }
    Ok(None)
}
