//! Loads, stores and the size of the memory.

ghost use Rattle.std.specs.Prelude.{◌≡◌, ℕ, ◌*◌, ◌-◌, ◌<◌, ◌≤◌, ◌^◌};
ghost use Rattle.wb_syntax.specs.declared.syntax.NumType.TheVariants.{I32};
ghost use Rattle.wb_syntax.specs.Table.{row_at};
ghost use Rattle.wb_syntax.specs.Numbers.{bits_of};
ghost use Rattle.wb_syntax.specs.Execute.{extended};
ghost use Rattle.wb_state.specs.Bytes.{bytes_in};
ghost use Rattle.wb_plain.specs.Rows.{sign_of, load_types, store_types};
ghost use Rattle.wb_plain.specs.Effects.{Ends, SameStore, SameRoom, has_effect, load_typed, store_typed, size_in, grow_in};
ghost use Rattle.wb_plain.specs.Follows.{pages_of};

use crate::kinds::{LoadKind, load_kind, store_kind};
use crate::numeric::put;
use crate::outcome::{Outcome, TrapKind};
use wb_state::{State, Width, Word};
use wb_syntax::NumType;

/// What is added to a number of so many bytes whose sign bit is set.
fn filled(kind: LoadKind) -> u64
    ensures { result ≡ 2 ^ bits_of kind.gives - 2 ^ (8 * bytes_in kind.width) }
{
    match kind.gives {
        NumType::I32 => match kind.width {
            Width::One => 0xFFFF_FF00,
            Width::Two => 0xFFFF_0000,
            Width::Four | Width::Eight => 0,
        },
        NumType::I64 => match kind.width {
            Width::One => 0xFFFF_FFFF_FFFF_FF00,
            Width::Two => 0xFFFF_FFFF_FFFF_0000,
            Width::Four => 0xFFFF_FFFF_0000_0000,
            Width::Eight => 0,
        },
    }
}

/// The least number of so many bytes whose sign bit is set.
fn half(width: Width) -> u64
    ensures { result ≡ 2 ^ (8 * bytes_in width - 1) }
{
    match width {
        Width::One => 0x80,
        Width::Two => 0x8000,
        Width::Four => 0x8000_0000,
        Width::Eight => 0x8000_0000_0000_0000,
    }
}

/// The bits of the word for a number that was read.
fn extended(kind: LoadKind, number: u64) -> u64
    requires fits { number < 2 ^ (8 * bytes_in kind.width) }
    requires narrow { 8 * bytes_in kind.width ≤ bits_of kind.gives }
    ensures bits { result ≡ extended kind.gives (sign_of kind.signed) (8 * bytes_in kind.width) number }
    ensures word { result < 2 ^ bits_of kind.gives }
{
    if !kind.signed || number < half(kind.width) {
        return number;
    }
    number + filled(kind)
}

/// A load from a base, which is on top, and an offset.
#[inline(always)]
pub fn load(state: &mut State, op: u8, offset: u32) -> Outcome
    ensures { Ends result (load_typed offset state.old (load_types (row_at op))) state.old state.new }
{
    let Some(kind) = load_kind(op) else {
        return Outcome::Stuck;
    };
    let Some(memory) = &state.memory else {
        return Outcome::Stuck;
    };
    let Some(base) = state.operands.take(NumType::I32) else {
        return Outcome::Stuck;
    };
    match memory.read(base + u64::from(offset), kind.width) {
        None => Outcome::Traps(TrapKind::OutOfBounds),
        Some(number) => put(state, Word::new(kind.gives, extended(kind, number))),
    }
}

/// A store of the topmost word, at a base below it and an offset.
#[inline(always)]
pub fn store(state: &mut State, op: u8, offset: u32) -> Outcome
    ensures { Ends result (store_typed offset state.old (store_types (row_at op))) state.old state.new }
{
    let Some(kind) = store_kind(op) else {
        return Outcome::Stuck;
    };
    let Some(memory) = &mut state.memory else {
        return Outcome::Stuck;
    };
    let Some(value) = state.operands.take(kind.takes) else {
        return Outcome::Stuck;
    };
    let Some(base) = state.operands.take(NumType::I32) else {
        return Outcome::Stuck;
    };
    if memory.write(base + u64::from(offset), kind.width, value) {
        Outcome::Goes
    } else {
        Outcome::Traps(TrapKind::OutOfBounds)
    }
}

/// Whether a store has an effect, a trap counted; takes its operands alone.
#[tactic(auto, using(crate::proofs::Writing::written_has))]
pub fn can_store(state: &mut State, op: u8, offset: u32) -> bool
    ensures effect { result ≡ has_effect (store_typed offset state.old (store_types (row_at op))) }
    ensures store { SameStore state.old state.new }
    ensures room { SameRoom state.old state.new }
{
    let Some(kind) = store_kind(op) else {
        return false;
    };
    if state.memory.is_none() {
        return false;
    }
    if state.operands.take(kind.takes).is_none() {
        return false;
    }
    state.operands.take(NumType::I32).is_some()
}

/// Puts the size of the memory on top, in pages.
pub fn size(state: &mut State) -> Outcome
    ensures { Ends result (size_in state.old state.old.memory) state.old state.new }
{
    let Some(memory) = &state.memory else {
        return Outcome::Stuck;
    };
    let pages = memory.pages();
    put(state, Word::I32(pages))
}

/// Takes a number of pages for a memory whose room is its size: puts the size where the number is 0, else -1.
pub fn grow(state: &mut State) -> Outcome
    ensures { Ends result (grow_in (pages_of state.old.memory) state.old state.old.memory) state.old state.new }
{
    let Some(memory) = &state.memory else {
        return Outcome::Stuck;
    };
    let pages = memory.pages();
    let Some(more) = state.operands.take(NumType::I32) else {
        return Outcome::Stuck;
    };
    if more == 0 {
        put(state, Word::I32(pages))
    } else {
        put(state, Word::I32(u32::MAX))
    }
}

/// Whether `memory.grow` has an effect, whatever the room of the memory; takes its operand alone.
#[tactic(auto, using(crate::proofs::Writing::grow_has))]
pub fn can_grow(state: &mut State) -> bool
    ensures effect { (room : ℕ) → result ≡ has_effect (grow_in room state.old state.old.memory) }
    ensures store { SameStore state.old state.new }
    ensures room { SameRoom state.old state.new }
{
    if state.memory.is_none() {
        return false;
    }
    state.operands.take(NumType::I32).is_some()
}
