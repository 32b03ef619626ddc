//! What instructions that are no constructs do to operands.

ghost use Rattle.std.specs.Prelude.{◌≡◌, ◌∷◌, map, slice_get};
ghost use Rattle.wb_syntax.specs.Typing.{context_of, is_there};
ghost use Rattle.wb_valid.specs.Syntax.{I32, Global, Func};
ghost use Rattle.wb_valid.specs.Effects.{Moves, Jumping, Calls, gives, at_index, set_global, same_result, taking, only_if, all_carry, effect};
ghost use Rattle.wb_valid.specs.Checking.{inner, label};
ghost use Rattle.wb_valid.specs.Locals.{running_sums};

use crate::frames::{Frame, label_at};
use crate::locals::local_type;
use crate::pile::Pile;
use crate::rows::{Effect, binary, load, moves, only_if, store, taking, unary};
use wb_syntax::syntax::Instr;
use wb_syntax::{Func, FuncType, Module, NumType};

fn same_result(one: Option<NumType>, other: Option<NumType>) -> bool
    ensures { result ≡ same_result one other }
{
    match one {
        None => other.is_none(),
        Some(ty) => match other {
            None => false,
            Some(other) => ty == other,
        },
    }
}

/// Whether all these labels are there and carry this.
fn all_carry(current: &Frame, outer: &Pile<Frame>, carried: Option<NumType>, labels: &[u32]) -> bool
    ensures { result ≡ all_carry (map label (current.now ∷ outer.now)) carried labels.now }
{
    for index in labels {
        match label_at(current, outer, *index) {
            None => return false,
            Some(label) => {
                if !same_result(carried, label) {
                    return false;
                }
            }
        }
    }
    true
}

/// Reads a local or a global of this type.
fn get(ty: Option<NumType>) -> Effect
    ensures { result ≡ at_index gives ty }
{
    match ty {
        None => Effect::Refused,
        Some(ty) => moves(None, Some(ty)),
    }
}

fn local_set(ty: Option<NumType>) -> Effect
    ensures { result ≡ at_index (λ t. Moves (taking (Some t) None) None) ty }
{
    match ty {
        None => Effect::Refused,
        Some(ty) => moves(Some(ty), None),
    }
}

fn local_tee(ty: Option<NumType>) -> Effect
    ensures { result ≡ at_index (λ t. Moves (taking (Some t) None) (Some t)) ty }
{
    match ty {
        None => Effect::Refused,
        Some(ty) => moves(Some(ty), Some(ty)),
    }
}

fn global_get(m: &Module, index: u32) -> Effect
    ensures { result ≡ at_index (λ (g : Global). gives g.ty) (slice_get m.now.globals index) }
{
    match m.globals.get(index as usize) {
        None => Effect::Refused,
        Some(global) => moves(None, Some(global.ty)),
    }
}

fn global_set(m: &Module, index: u32) -> Effect
    ensures { result ≡ at_index set_global (slice_get m.now.globals index) }
{
    match m.globals.get(index as usize) {
        None => Effect::Refused,
        Some(global) => only_if(global.mutable, moves(Some(global.ty), None)),
    }
}

fn has_memory(m: &Module) -> bool
    ensures { result ≡ is_there m.now.memories }
{
    m.memories.len() > 0
}

fn branch(label: Option<Option<NumType>>) -> Effect
    ensures { result ≡ at_index (λ t. Jumping (taking None t)) label }
{
    match label {
        None => Effect::Refused,
        Some(carried) => Effect::Jumping(taking(None, carried)),
    }
}

fn branch_if(label: Option<Option<NumType>>) -> Effect
    ensures { result ≡ at_index (λ t. Moves (taking (Some I32) t) t) label }
{
    match label {
        None => Effect::Refused,
        Some(carried) => Effect::Moves(taking(Some(NumType::I32), carried), carried),
    }
}

fn branch_table(current: &Frame, outer: &Pile<Frame>, labels: &[u32], last: u32) -> Effect
    ensures { let here = map label (current.now ∷ outer.now) in result ≡ at_index (λ t. only_if (all_carry here t labels.now) (Jumping (taking (Some I32) t))) (slice_get here last) }
{
    match label_at(current, outer, last) {
        None => Effect::Refused,
        Some(carried) => only_if(
            all_carry(current, outer, carried, labels),
            Effect::Jumping(taking(Some(NumType::I32), carried)),
        ),
    }
}

fn call(m: &Module, index: u32) -> Effect
    ensures { result ≡ at_index Calls (slice_get (map (λ (g : Func). g.ty) m.now.funcs) index) }
{
    match m.funcs.get(index as usize) {
        None => Effect::Refused,
        Some(func) => Effect::Calls(func.ty),
    }
}

/// What an instruction that is no construct does, at a place of a function's body.
pub fn effect_of(
    m: &Module,
    func: &Func,
    ty: &FuncType,
    sums: &[u64],
    current: &Frame,
    outer: &Pile<Frame>,
    instr: &Instr,
) -> Effect
    requires { sums.now ≡ running_sums 0 func.now.locals }
    ensures { result ≡ effect (inner (context_of m.now func.now ty.now) (current.now ∷ outer.now)) instr.now }
{
    let params = ty.params.as_slice();
    let runs = func.locals.as_slice();
    match instr {
        Instr::I32Const(_) => moves(None, Some(NumType::I32)),
        Instr::I64Const(_) => moves(None, Some(NumType::I64)),
        Instr::Unary(op) => unary(*op),
        Instr::Binary(op) => binary(*op),
        Instr::Drop => Effect::Drops,
        Instr::Select => Effect::Selects,
        Instr::LocalGet(index) => get(local_type(params, runs, sums, *index)),
        Instr::LocalSet(index) => local_set(local_type(params, runs, sums, *index)),
        Instr::LocalTee(index) => local_tee(local_type(params, runs, sums, *index)),
        Instr::GlobalGet(index) => global_get(m, *index),
        Instr::GlobalSet(index) => global_set(m, *index),
        Instr::Load(op, align, _) => load(has_memory(m), *align, *op),
        Instr::Store(op, align, _) => store(has_memory(m), *align, *op),
        Instr::MemorySize => only_if(has_memory(m), moves(None, Some(NumType::I32))),
        Instr::MemoryGrow => only_if(has_memory(m), moves(Some(NumType::I32), Some(NumType::I32))),
        Instr::Nop => moves(None, None),
        Instr::Unreachable => Effect::Jumping(taking(None, None)),
        Instr::Br(index) => branch(label_at(current, outer, *index)),
        Instr::BrIf(index) => branch_if(label_at(current, outer, *index)),
        Instr::BrTable(labels, last) => branch_table(current, outer, labels.as_slice(), *last),
        Instr::Return => Effect::Jumping(taking(None, ty.result)),
        Instr::Call(index) => call(m, *index),
        Instr::Block(_) | Instr::Loop(_) | Instr::If(_) | Instr::Else | Instr::End => {
            Effect::Refused
        }
    }
}
