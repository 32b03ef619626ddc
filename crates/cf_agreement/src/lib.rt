//! When a module does what a program of the object level does, as definitions, and laws of them.
#![tactic(auto)]

mod laws;

pub use laws::{agreeing_is_over, one_outcome, same_outcomes};
