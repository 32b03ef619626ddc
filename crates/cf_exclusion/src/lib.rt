//! Laws of answers and refusals, each proved as the contract of a function that does nothing.
//!
//! An answer and the cause of a refusal exclude each other, and so do two causes. Want of memory has no cause: no law says
//! when it comes.
#![tactic(auto)]

mod laws;

pub use laws::{
    one_core, one_lexed, one_refusal_of_build, one_refusal_of_core, one_refusal_of_run,
    one_refusal_of_source, one_refusal_of_tokens, reads_as_one, refuses_no_built, refuses_no_core,
    refuses_no_program, refuses_no_read, refuses_no_run, runs_to_one,
};
