//! What a WebAssembly machine works on: words, the operands and locals of a run, globals and memory.
//!
//! A run takes no memory: [`Operands`] and [`Locals`] have their room from the beginning, and say where it is full.
//! Contracts see words as the definition of execution has them (`wb_syntax`, `Execute`), and a stack as two lists with
//! the top first: the operands of the innermost construct, and those below.
//!
//! | Type | What contracts see |
//! |---|---|
//! | [`Word`] | `seen`: the type and the bits |
//! | [`Operands`] | `Stack`: the words above the floor and those below it, and how many there may be |
//! | [`Locals`] | `Frames`: the locals of the innermost frame, and those of the frames around it |
//! | [`Globals`] | the list of words |
//! | [`Memory`] | the list of bytes |
//! | [`State`] | a record of these |
#![tactic(auto)]

mod globals;
mod locals;
mod memory;
mod operands;
mod state;
mod words;

pub use globals::Globals;
pub use locals::Locals;
pub use memory::{Memory, Width};
pub use operands::Operands;
pub use state::State;
pub use words::Word;
