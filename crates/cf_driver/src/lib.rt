//! The commands over bytes: what is made of a source or of a module, and why it is refused.
#![tactic(auto)]

mod building;
mod ends;
mod executing;
mod lowering;
mod printing;
mod reading;

pub use building::built;
pub use ends::{Line, Word};
pub use executing::executed;
pub use printing::core;
