//! One instruction of a run, and whether a step follows.

ghost use Rattle.std.specs.Prelude.{◌≡◌, ℕ, true};
ghost use Rattle.wb_syntax.specs.Execute.{Config};
ghost use Rattle.wb_plain.specs.Effects.{SameStore, SameRoom, effect, has_effect, writes_store};
ghost use Rattle.wb_plain.specs.Follows.{pages_of, length_of};
ghost use Rattle.wb_control.specs.Changes.{Fits, SameRooms};
ghost use Rattle.wb_control.specs.Stands.{HasBody, AllNested, AllLead, Stands};
ghost use Rattle.wb_control.specs.Advances.{IsSettled, Advances, FitsOn, Stays, Spares, HasStep, is_made};

use crate::carrying::carry_out;
use crate::run::{Flow, Run};
use sqlite_items::Items;
use wb_code::Jump;
use wb_plain::{can_grow, can_set_global, can_store, effects_are_steps};
use wb_state::State;
use wb_syntax::{Instr, Module};

/// Carries out the instruction at the place of a run whose jumps are known, in the body of its function: a step, or a
/// constant, which is none. The room of the memory is its size.
#[inline(always)]
pub fn advance(run: &mut Run, m: &Module, jumps: &[Items<Jump>], body: &[Instr]) -> Flow
    requires fits { Fits run.old }
    requires body { HasBody m.now run.old body.now }
    ensures advances { (c : Config) → AllNested m.now → AllLead m.now jumps.now → Stands m.now run.old c → Advances m.now (pages_of run.old.state.memory) c result run.old run.new }
    ensures fits { FitsOn result run.new }
    ensures stays { Stays result run.old run.new }
    ensures store { Spares result run.old run.new }
    ensures size { length_of run.new.state.memory ≡ length_of run.old.state.memory }
    ensures room { SameRooms run.old run.new }
{
    let count = body.len();
    if run.place.at >= count {
        return Flow::Stuck;
    }
    let words = run.state.operands.height();
    prove!(words <= 0x1_0000_0000);
    let next = run.place.at + 1;
    carry_out(run, m, jumps, &body[run.place.at], next)
}

/// Whether this is an instruction that may write to memory or to a global, or make memory larger.
fn writes_store(instr: &Instr) -> bool
    ensures { result ≡ writes_store instr.now }
{
    match instr {
        Instr::GlobalSet(_) | Instr::Store(_, _, _) | Instr::MemoryGrow => true,
        _ => false,
    }
}

/// Whether an instruction that may write to memory or to a global, or make memory larger, has an effect, whatever the room
/// of the memory; takes its operands alone.
fn can_write(state: &mut State, instr: &Instr) -> bool
    requires { writes_store instr.now ≡ true }
    ensures effect { (room : ℕ) → result ≡ has_effect (effect room instr.now state.old) }
    ensures store { SameStore state.old state.new }
    ensures room { SameRoom state.old state.new }
{
    match instr {
        Instr::GlobalSet(index) => can_set_global(state, *index),
        Instr::Store(op, _, offset) => can_store(state, *op, *offset),
        Instr::MemoryGrow => can_grow(state),
        _ => false,
    }
}

/// Whether an instruction that was carried out has a step.
fn is_made(flow: Flow) -> bool
    ensures { result ≡ is_made flow }
{
    match flow {
        Flow::Stuck => false,
        _ => true,
    }
}

/// Whether a step follows, at an instruction that is no constant. Memory and globals stay; the rest of the run is used up.
pub fn has_step(run: &mut Run, m: &Module, jumps: &[Items<Jump>]) -> bool
    requires fits { Fits run.old }
    requires settled { IsSettled m.now run.old }
    ensures step { (c : Config) → AllNested m.now → AllLead m.now jumps.now → Stands m.now run.old c → HasStep m.now (pages_of run.old.state.memory) c result }
    ensures store { SameStore run.old.state run.new.state }
    ensures room { SameRooms run.old run.new }
{
    let Some(func) = m.funcs.get(run.place.func) else {
        return false;
    };
    let Some(instr) = func.body.get(run.place.at) else {
        return false;
    };
    let count = func.body.len();
    prove!(run.place.at < count);
    let next = run.place.at + 1;
    if writes_store(instr) {
        effects_are_steps();
        can_write(&mut run.state, instr)
    } else {
        is_made(carry_out(run, m, jumps, instr, next))
    }
}
