//! Locals and globals.

ghost use Rattle.std.specs.Prelude.{◌≡◌, slice_get};
ghost use Rattle.wb_plain.specs.Effects.{Ends, SameStore, SameRoom, has_effect, get, local_set, local_tee, global_set};

use crate::numeric::put;
use crate::outcome::Outcome;
use wb_state::State;

/// Puts the word of a local on top.
#[inline(always)]
pub fn local_get(state: &mut State, index: u32) -> Outcome
    ensures { Ends result (get state.old (slice_get state.old.locals.current index)) state.old state.new }
{
    match state.locals.get(index) {
        None => Outcome::Stuck,
        Some(word) => put(state, word),
    }
}

/// Sets a local to the topmost word.
#[inline(always)]
pub fn local_set(state: &mut State, index: u32) -> Outcome
    ensures { Ends result (local_set index state.old state.old.operands.above) state.old state.new }
{
    let Some(word) = state.operands.take_any() else {
        return Outcome::Stuck;
    };
    if !state.locals.set(index, word) {
        return Outcome::Stuck;
    }
    Outcome::Goes // the word is taken
}

/// Sets a local to the topmost word, which stays.
#[inline(always)]
pub fn local_tee(state: &mut State, index: u32) -> Outcome
    ensures { Ends result (local_tee index state.old state.old.operands.above) state.old state.new }
{
    let Some(word) = state.operands.take_any() else {
        return Outcome::Stuck;
    };
    if !state.locals.set(index, word) {
        return Outcome::Stuck;
    }
    put(state, word) // the word stays
}

/// Puts the word of a global on top.
pub fn global_get(state: &mut State, index: u32) -> Outcome
    ensures { Ends result (get state.old (slice_get state.old.globals index)) state.old state.new }
{
    match state.globals.get(index) {
        None => Outcome::Stuck,
        Some(word) => put(state, word),
    }
}

/// Sets a global to the topmost word.
pub fn global_set(state: &mut State, index: u32) -> Outcome
    ensures { Ends result (global_set index state.old state.old.operands.above) state.old state.new }
{
    let Some(word) = state.operands.take_any() else {
        return Outcome::Stuck;
    };
    if !state.globals.set(index, word) {
        return Outcome::Stuck;
    }
    Outcome::Goes
}

/// Whether setting a global has an effect; takes its operand alone.
#[tactic(auto, using(crate::proofs::Writing::set_has))]
pub fn can_set_global(state: &mut State, index: u32) -> bool
    ensures effect { result ≡ has_effect (global_set index state.old state.old.operands.above) }
    ensures store { SameStore state.old state.new }
    ensures room { SameRoom state.old state.new }
{
    let Some(word) = state.operands.take_any() else {
        return false;
    };
    match state.globals.get(index) {
        None => false,
        Some(held) => held.ty() == word.ty(),
    }
}
