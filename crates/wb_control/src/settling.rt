//! Constants, which are values and take no step.

ghost use Rattle.std.specs.Prelude.{◌≡◌};
ghost use Rattle.std.specs.Option.{option_map};
ghost use Rattle.wb_syntax.specs.Execute.{Config};
ghost use Rattle.wb_state.specs.Words.{seen};
ghost use Rattle.wb_syntax.specs.declared.syntax.Module.{Module as TheModule};
ghost use Rattle.wb_plain.specs.Effects.{SameStore};
ghost use Rattle.wb_control.specs.Changes.{Fits, SameRooms};
ghost use Rattle.wb_control.specs.Stands.{HasBody, Stands};
ghost use Rattle.wb_control.specs.Advances.{constant_word, Settles, IsReady};

use crate::run::Run;
use wb_state::Word;
use wb_syntax::{Instr, Module};

/// The word of a constant; None of any other instruction.
pub fn constant_word(instr: &Instr) -> Option<Word>
    ensures { option_map seen result ≡ constant_word instr.now }
{
    match instr {
        Instr::I32Const(number) => Some(Word::I32(number.cast_unsigned())),
        Instr::I64Const(number) => Some(Word::I64(number.cast_unsigned())),
        _ => None,
    }
}

/// Puts the constants from the place of a run on, in the body of its function; says whether there was room for them.
#[inline(always)]
fn put_constants(run: &mut Run, body: &[Instr]) -> bool
    requires { Fits run.old }
    ensures settles { (m : TheModule) (c : Config) → HasBody m run.old body.now → Stands m run.old c → Settles m c result run.old run.new }
    ensures ready { (m : TheModule) → HasBody m run.old body.now → IsReady m result run.new }
    ensures store { SameStore run.old.state run.new.state }
    ensures room { SameRooms run.old run.new }
{
    while run.place.at < body.len() {
        let Some(word) = constant_word(&body[run.place.at]) else {
            let words = run.state.operands.height();
            prove!(words <= 0x1_0000_0000);
            return true;
        };
        if !run.state.operands.put(word) {
            return false;
        }
        run.place.at += 1;
    }
    true
}

/// Puts the constants at the place of a run, which are values; says whether there was room for them.
#[inline(always)]
pub fn settle(run: &mut Run, m: &Module) -> bool
    requires { Fits run.old }
    ensures settles { (c : Config) → Stands m.now run.old c → Settles m.now c result run.old run.new }
    ensures ready { IsReady m.now result run.new }
    ensures store { SameStore run.old.state run.new.state }
    ensures room { SameRooms run.old run.new }
{
    match m.funcs.get(run.place.func) {
        None => true,
        Some(func) => put_constants(run, func.body.as_slice()),
    }
}
