//! Judges the tokens of a text: whether they are a program, by which steps, and if not, why not.
#![tactic(auto)]

mod checking;
mod ends;
mod judging;
mod numbers;
mod source;

pub use ends::{OutOfMemory, ParseEnd};
pub use judging::judge;
pub use source::Source;
