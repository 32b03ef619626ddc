//! Laws of runs: what the definition of execution says of the code that a compiler writes.
//!
//! A state is seen as what is run in a frame at a place (`specs/States`): the words and the code there, the locals, the store, and
//! what is around. The machine of `wb_syntax` is seen as a machine that steps (`specs/Moves`), from states of at most so many
//! words. A law of an instruction says to which state its step leads; what a row of steps leads to is what a run with words
//! enough comes to, and a run with fewer comes to it or is full. The functions here are the laws, each of which does nothing.
#![tactic(auto)]

mod instructions;
mod runs;
mod values;

pub use instructions::{
    branches, calls, constructs, memory, numeric, parametric, returns, variables,
};
pub use runs::{bounded_runs, runs_exactly, sequences, states};
pub use values::{code_joined, divisions, numbers_stored, rows_found, variables_set};
