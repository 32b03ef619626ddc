//! What a run does at an instruction.

ghost use Rattle.std.specs.Prelude.{◌≡◌, ℕ, false};
ghost use Rattle.wb_syntax.specs.declared.syntax.Instr.{Instr as TheInstr};
ghost use Rattle.wb_state.specs.Words.{seen};
ghost use Rattle.wb_plain.specs.Effects.{State, Ends, effect};
ghost use Rattle.wb_plain.specs.Follows.{pages_of};
ghost use Rattle.wb_control.specs.Changes.{Fits};
ghost use Rattle.wb_control.specs.Advances.{Puts, Straightens, Carries, is_control, in_state, flow_of};

use crate::branches::{branch, end, leave_frame};
use crate::calls::call;
use crate::constructs::enter;
use crate::controlling::{block, branch_by, branch_if, pass_over, test};
use crate::run::{Flow, Run};
use sqlite_items::Items;
use wb_code::Jump;
use wb_plain::{
    Outcome, TrapKind, binary, drop_word, effects_are_steps, global_get, global_set, grow, load,
    local_get, local_set, local_tee, select, size, store, unary,
};
use wb_state::Word;
use wb_syntax::{Instr, Module};

/// Puts a constant on top, which stands before `next`.
#[inline(always)]
fn put_constant(run: &mut Run, word: Word, next: usize) -> Flow
    requires { Fits run.old }
    ensures { Puts result (seen word) next run.old run.new }
{
    if !run.state.operands.put(word) {
        return Flow::Full;
    }
    run.place.at = next;
    Flow::Settles
}

/// What an instruction comes to that was carried out on the state of a run.
#[cold]
#[inline(never)]
fn flow_of(outcome: Outcome) -> Flow
    ensures { result ≡ flow_of outcome }
{
    match outcome {
        Outcome::Goes => Flow::Goes,
        Outcome::Full => Flow::Full,
        Outcome::Traps(kind) => Flow::Traps(kind),
        Outcome::Stuck => Flow::Stuck,
    }
}

/// Goes on at `next`, behind an instruction that was carried out on the state of a run.
#[inline(always)]
fn follow(outcome: Outcome, run: &mut Run, next: usize) -> Flow
    ensures { (room : ℕ) (i : TheInstr) (first : State) → is_control i ≡ false → Fits (in_state run.old first) → Ends outcome (effect room i first) first run.old.state → Straightens result room i next (in_state run.old first) run.new }
{
    effects_are_steps();
    match outcome {
        Outcome::Goes => {
            run.place.at = next;
            Flow::Goes
        }
        _ => flow_of(outcome),
    }
}

/// Carries out an instruction, which stands at the place of a run and before `next`. The room of the memory is its size.
#[inline(always)]
pub(crate) fn carry_out(
    run: &mut Run,
    m: &Module,
    jumps: &[Items<Jump>],
    instr: &Instr,
    next: usize,
) -> Flow
    requires { Fits run.old }
    ensures { Carries result m.now (pages_of run.old.state.memory) jumps.now next instr.now run.old run.new }
{
    match instr {
        Instr::Unreachable => follow(Outcome::Traps(TrapKind::Unreachable), run, next),
        Instr::Nop => follow(Outcome::Goes, run, next),
        Instr::Block(ty) => block(run, jumps, *ty, next),
        Instr::Loop(_) => {
            let at = run.place.at;
            enter(run, false, at, next)
        }
        Instr::If(ty) => test(run, jumps, *ty, next),
        Instr::Else => pass_over(run, jumps),
        Instr::End => end(run, next),
        Instr::Br(index) => branch(run, *index as usize),
        Instr::BrIf(index) => branch_if(run, *index, next),
        Instr::BrTable(labels, last) => branch_by(run, labels.as_slice(), *last),
        Instr::Return => leave_frame(run),
        Instr::Call(index) => call(run, m, *index, next),
        Instr::Drop => follow(drop_word(&mut run.state), run, next),
        Instr::Select => follow(select(&mut run.state), run, next),
        Instr::LocalGet(index) => follow(local_get(&mut run.state, *index), run, next),
        Instr::LocalSet(index) => follow(local_set(&mut run.state, *index), run, next),
        Instr::LocalTee(index) => follow(local_tee(&mut run.state, *index), run, next),
        Instr::GlobalGet(index) => follow(global_get(&mut run.state, *index), run, next),
        Instr::GlobalSet(index) => follow(global_set(&mut run.state, *index), run, next),
        Instr::Load(op, _, offset) => follow(load(&mut run.state, *op, *offset), run, next),
        Instr::Store(op, _, offset) => follow(store(&mut run.state, *op, *offset), run, next),
        Instr::MemorySize => follow(size(&mut run.state), run, next),
        Instr::MemoryGrow => follow(grow(&mut run.state), run, next),
        Instr::I32Const(number) => put_constant(run, Word::I32(number.cast_unsigned()), next),
        Instr::I64Const(number) => put_constant(run, Word::I64(number.cast_unsigned()), next),
        Instr::Unary(op) => follow(unary(&mut run.state, *op), run, next),
        Instr::Binary(op) => follow(binary(&mut run.state, *op), run, next),
    }
}
