//! Tests of the compiler, from bytes to normal forms: worked examples, with terms that come from text.
//!
//! There is nothing here but tests, and they call public functions only.
#![tactic(auto)]

#[cfg(test)]
mod building;
#[cfg(test)]
mod bytes;
#[cfg(test)]
mod command_lines;
#[cfg(test)]
mod lexing;
#[cfg(test)]
mod limits;
#[cfg(test)]
mod normal_forms;
#[cfg(test)]
mod programs;
#[cfg(test)]
mod refusals;
#[cfg(test)]
mod terms;
