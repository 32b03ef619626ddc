//! Numeric operations, drop and select.

ghost use Rattle.std.specs.Prelude.{◌≡◌, Some};
ghost use Rattle.wb_syntax.specs.Table.{row_at};
ghost use Rattle.wb_syntax.specs.Execute.{same_type};
ghost use Rattle.wb_state.specs.Words.{seen};
ghost use Rattle.wb_state.specs.Stack.{take_word};
ghost use Rattle.wb_syntax.specs.declared.syntax.NumType.TheVariants.{I32};
ghost use Rattle.wb_plain.specs.Rows.{unary_types, binary_types};
ghost use Rattle.wb_plain.specs.Effects.{Ends, puts, unary_typed, binary_typed, drop_from, select_taken, select_from, chosen};

use crate::outcome::{Outcome, TrapKind};
use wb_num::NumTrap;
use wb_state::{State, Word};
use wb_syntax::NumType;

/// Puts a word on top.
#[inline(always)]
pub fn put(state: &mut State, word: Word) -> Outcome
    ensures { Ends result (puts state.old (seen word)) state.old state.new }
{
    if state.operands.put(word) {
        Outcome::Goes
    } else {
        Outcome::Full
    }
}

/// An operation with one operand, of these types.
#[inline(always)]
fn unary_of(state: &mut State, op: u8, takes: NumType, gives: NumType) -> Outcome
    requires { Some (record { takes = takes; gives = gives }) ≡ unary_types (row_at op) }
    ensures { Ends result (unary_typed (row_at op) state.old (unary_types (row_at op))) state.old state.new }
{
    let Some(operand) = state.operands.take(takes) else {
        return Outcome::Stuck;
    };
    put(state, Word::new(gives, wb_num::unary(op, operand)))
}

/// An operation with one operand, by its opcode.
#[tactic(auto, unfolding(wb_syntax::specs::Table::row_at))]
pub fn unary(state: &mut State, op: u8) -> Outcome
    ensures { Ends result (unary_typed (row_at op) state.old (unary_types (row_at op))) state.old state.new }
{
    match op {
        0x45 => unary_of(state, op, NumType::I32, NumType::I32),
        0x50 => unary_of(state, op, NumType::I64, NumType::I32),
        0x67..=0x69 => unary_of(state, op, NumType::I32, NumType::I32),
        0x79..=0x7B => unary_of(state, op, NumType::I64, NumType::I64),
        0xA7 => unary_of(state, op, NumType::I64, NumType::I32),
        0xAC..=0xAD => unary_of(state, op, NumType::I32, NumType::I64),
        _ => Outcome::Stuck,
    }
}

/// An operation with two operands, of these types.
#[inline(always)]
fn binary_of(state: &mut State, op: u8, takes: NumType, gives: NumType) -> Outcome
    requires { Some (record { takes = takes; gives = gives }) ≡ binary_types (row_at op) }
    ensures { Ends result (binary_typed (row_at op) state.old (binary_types (row_at op))) state.old state.new }
{
    let Some(second) = state.operands.take(takes) else {
        return Outcome::Stuck;
    };
    let Some(first) = state.operands.take(takes) else {
        return Outcome::Stuck;
    };
    match wb_num::binary(op, first, second) {
        Ok(number) => put(state, Word::new(gives, number)),
        Err(NumTrap::DivideByZero) => Outcome::Traps(TrapKind::DivideByZero),
        Err(NumTrap::Overflow) => Outcome::Traps(TrapKind::Overflow),
    }
}

/// An operation with two operands, by its opcode. Each arm knows its operation, so that no choice is made twice.
#[tactic(auto, unfolding(wb_syntax::specs::Table::row_at))]
pub fn binary(state: &mut State, op: u8) -> Outcome
    ensures { Ends result (binary_typed (row_at op) state.old (binary_types (row_at op))) state.old state.new }
{
    match op {
        0x46 => binary_of(state, 0x46, NumType::I32, NumType::I32),
        0x47 => binary_of(state, 0x47, NumType::I32, NumType::I32),
        0x48 => binary_of(state, 0x48, NumType::I32, NumType::I32),
        0x49 => binary_of(state, 0x49, NumType::I32, NumType::I32),
        0x4A => binary_of(state, 0x4A, NumType::I32, NumType::I32),
        0x4B => binary_of(state, 0x4B, NumType::I32, NumType::I32),
        0x4C => binary_of(state, 0x4C, NumType::I32, NumType::I32),
        0x4D => binary_of(state, 0x4D, NumType::I32, NumType::I32),
        0x4E => binary_of(state, 0x4E, NumType::I32, NumType::I32),
        0x4F => binary_of(state, 0x4F, NumType::I32, NumType::I32),
        0x51 => binary_of(state, 0x51, NumType::I64, NumType::I32),
        0x52 => binary_of(state, 0x52, NumType::I64, NumType::I32),
        0x53 => binary_of(state, 0x53, NumType::I64, NumType::I32),
        0x54 => binary_of(state, 0x54, NumType::I64, NumType::I32),
        0x55 => binary_of(state, 0x55, NumType::I64, NumType::I32),
        0x56 => binary_of(state, 0x56, NumType::I64, NumType::I32),
        0x57 => binary_of(state, 0x57, NumType::I64, NumType::I32),
        0x58 => binary_of(state, 0x58, NumType::I64, NumType::I32),
        0x59 => binary_of(state, 0x59, NumType::I64, NumType::I32),
        0x5A => binary_of(state, 0x5A, NumType::I64, NumType::I32),
        0x6A => binary_of(state, 0x6A, NumType::I32, NumType::I32),
        0x6B => binary_of(state, 0x6B, NumType::I32, NumType::I32),
        0x6C => binary_of(state, 0x6C, NumType::I32, NumType::I32),
        0x6D => binary_of(state, 0x6D, NumType::I32, NumType::I32),
        0x6E => binary_of(state, 0x6E, NumType::I32, NumType::I32),
        0x6F => binary_of(state, 0x6F, NumType::I32, NumType::I32),
        0x70 => binary_of(state, 0x70, NumType::I32, NumType::I32),
        0x71 => binary_of(state, 0x71, NumType::I32, NumType::I32),
        0x72 => binary_of(state, 0x72, NumType::I32, NumType::I32),
        0x73 => binary_of(state, 0x73, NumType::I32, NumType::I32),
        0x74 => binary_of(state, 0x74, NumType::I32, NumType::I32),
        0x75 => binary_of(state, 0x75, NumType::I32, NumType::I32),
        0x76 => binary_of(state, 0x76, NumType::I32, NumType::I32),
        0x77 => binary_of(state, 0x77, NumType::I32, NumType::I32),
        0x78 => binary_of(state, 0x78, NumType::I32, NumType::I32),
        0x7C => binary_of(state, 0x7C, NumType::I64, NumType::I64),
        0x7D => binary_of(state, 0x7D, NumType::I64, NumType::I64),
        0x7E => binary_of(state, 0x7E, NumType::I64, NumType::I64),
        0x7F => binary_of(state, 0x7F, NumType::I64, NumType::I64),
        0x80 => binary_of(state, 0x80, NumType::I64, NumType::I64),
        0x81 => binary_of(state, 0x81, NumType::I64, NumType::I64),
        0x82 => binary_of(state, 0x82, NumType::I64, NumType::I64),
        0x83 => binary_of(state, 0x83, NumType::I64, NumType::I64),
        0x84 => binary_of(state, 0x84, NumType::I64, NumType::I64),
        0x85 => binary_of(state, 0x85, NumType::I64, NumType::I64),
        0x86 => binary_of(state, 0x86, NumType::I64, NumType::I64),
        0x87 => binary_of(state, 0x87, NumType::I64, NumType::I64),
        0x88 => binary_of(state, 0x88, NumType::I64, NumType::I64),
        0x89 => binary_of(state, 0x89, NumType::I64, NumType::I64),
        0x8A => binary_of(state, 0x8A, NumType::I64, NumType::I64),
        _ => Outcome::Stuck,
    }
}

/// Drops the topmost word.
#[inline(always)]
pub fn drop_word(state: &mut State) -> Outcome
    ensures { Ends result (drop_from state.old state.old.operands.above) state.old state.new }
{
    match state.operands.take_any() {
        None => Outcome::Stuck,
        Some(_) => Outcome::Goes,
    }
}

/// Chooses between the two topmost words.
#[inline(always)]
pub fn select(state: &mut State) -> Outcome
    ensures { Ends result (select_taken state.old (take_word I32 state.old.operands)) state.old state.new }
{
    let Some(condition) = state.operands.take(NumType::I32) else {
        return Outcome::Stuck;
    };
    let Some(second) = state.operands.take_any() else {
        return Outcome::Stuck;
    };
    let Some(first) = state.operands.take_any() else {
        return Outcome::Stuck;
    };
    if first.ty() != second.ty() {
        return Outcome::Stuck;
    }
    if condition == 0 {
        put(state, second)
    } else {
        put(state, first)
    }
}
