//! Programs of the object level, and the machine that runs them, as definitions.
#![tactic(auto)]

mod laws;

pub use cf_base::Outcome;
pub use laws::{ended_stays, runs_reach};
