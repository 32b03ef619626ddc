//! Validation of WebAssembly modules of the integer profile (the standard, section 3).
//!
//! [`validate`] takes a module and hands it back as a [`ValidModule`] exactly where it is valid by the declarative rules
//! (`Valid` of `wb_syntax`); otherwise it names the first part that is not ([`InvalidEnd`]). Nothing is required of the
//! module: bodies may be badly nested, and indices and opcodes may be any numbers.
//!
//! A body is gone over once, without recursion, as the standard's appendix does (7.3): [`frames`] holds the constructs
//! that are open, each with what is known of its operands ([`operands`]), where behind a jump any type may stand.
//! `specs/` has what the contracts of these private functions cite:
//!
//! | File of `specs/` | What it defines |
//! |---|---|
//! | `Answers` | what `validate` answers; the only definition here that the public contract cites |
//! | `Operands` | what is known of a stack, and what is left where operands are taken |
//! | `Effects` | what an instruction that is no construct does to operands |
//! | `Checking` | the constructs that are open, and where each instruction leads |
//! | `Locals`, `Scans` | running sums of locals; parts of one kind |
//! | `Laws` | the statements of the law below |
//!
//! `proofs/Fitting` shows that what is known of a stack is exact, `Plain` that effects are what the typing rules say,
//! `Levels`, `Constructs` and `Rests` that the steps over a body lead to its end exactly where the body has a typing,
//! and `Parts` that the parts add up to validity.
//!
//! [`first_is_one`] is a law, the contract of a function that does nothing: a module has at most one first part that is
//! not valid, and a valid one none.
#![tactic(auto)]

mod applying;
mod body;
mod effects;
mod exports;
mod frames;
mod laws;
mod locals;
mod operands;
pub mod part;
mod pile;
mod rows;
mod scans;
pub mod valid;

pub use laws::first_is_one;
pub use part::{InvalidEnd, Part};
pub use valid::{ValidModule, validate};
