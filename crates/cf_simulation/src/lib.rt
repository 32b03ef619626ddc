//! Machines that step, and machines that follow one another: each step of the one is some steps of the other, with a most
//! and a least number of them.
//!
//! A machine is a function from its states to moves. The definitions are in `specs/Simulation`; the functions here are laws,
//! each of which does nothing. Relations between machines stand as ghost members of a bound, since a clause ranges over values
//! alone: a law holds of all types and of all relations that an `impl` could give.
#![tactic(auto)]

mod laws;

pub use laws::{Related, Simulated, follows_keeps, keeps_through, steps_add_up};
