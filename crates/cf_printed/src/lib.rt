//! What printed programs read back as.
//!
//! The text of a core has the printed tokens, these are a program, and its names stand for what they were printed for.
//! The core of an explicit source is one that can be printed.
#![tactic(auto)]

mod laws;

pub use laws::{cores_are_scoped, reads_back, reads_only, tokens_are_pieces};
