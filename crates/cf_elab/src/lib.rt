//! From programs as they are written to the core: names become indices and numbers.
#![tactic(auto)]

mod declaring;
mod ends;
mod globals;
mod kinds;
mod locals;
mod numbers;
mod resolving;
mod scope;

pub use declaring::direct;
pub use ends::NameEnd;
