//! Runs: what a machine does at each instruction, by its program counter.
//!
//! A [`Run`] has a program counter into the flat body of a function; where its constructs lead is known in advance
//! (`wb_code`). Labels and the frames that wait stand on two piles beside the operands and the locals ([`wb_state`]).
//!
//! [`begin`] begins a run. [`advance`] carries out the instruction at its place, by one choice among all instructions: that
//! is a step, or puts a constant, which is none. Where a run may make no step more, [`settle`] puts the constants at its
//! place, and then [`has_step`] says whether a step would follow. They take no memory: operands, locals, labels and frames
//! have their room from the beginning, and each call leaves it as it was.
//!
//! `specs/Stands` says for which configuration of the definition of execution (`wb_syntax`, `Execute`) a run stands: the
//! code that is left behind the program counter, cut into levels, is what the labels of the configuration have, and the
//! words between two floors are the words below a label.
#![tactic(auto)]

mod advancing;
mod beginning;
mod branches;
mod calls;
mod carrying;
mod constructs;
mod controlling;
mod piles;
mod run;
mod settling;

pub use advancing::{advance, has_step};
pub use beginning::begin;
pub use piles::{Callers, Labels};
pub use run::{Caller, Flow, Label, Place, Run};
pub use settling::{constant_word, settle};
