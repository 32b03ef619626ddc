//! Tests of the crates about WebAssembly modules, which call their public functions alone.
//!
//! What a contract says needs no test. Here stands what no clause says: that memory suffices, what is written by the
//! standard's own rows, operations at their edges, and that deep nesting is no harm. Modules are written as words
//! ([`samples`]), which are their bytes.
//!
//! | Module | What it tries |
//! |---|---|
//! | `spelling` | which bytes are read, and which are written |
//! | `numbered` | modules by number, written again |
//! | `typing` | bodies and other parts that are valid, and that are not |
//! | `operands` | each instruction with operands |
//! | `constructs` | where constructs lead, and bodies that no bytes spell |
//! | `running` | modules that are run |
//! | `operations` | integer operations at their edges |
//! | `room` | the parts of a machine's state |
#![tactic(auto)]

#[cfg(test)]
mod constructs;
#[cfg(test)]
mod numbered;
#[cfg(test)]
mod operands;
#[cfg(test)]
mod operations;
#[cfg(test)]
mod room;
#[cfg(test)]
mod running;
#[cfg(test)]
mod samples;
#[cfg(test)]
mod spelling;
#[cfg(test)]
mod typing;
