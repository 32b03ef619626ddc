//! Evaluation of terms with shared environments, and reading values back.
#![tactic(auto)]

mod answers;
mod binders;
mod calling;
mod evaluating;
mod memory;
mod reading;
mod scoping;
mod stepping;

pub use answers::{Budget, EvalEnd, Evaluated, Written};
pub use calling::{evaluate, normalise};
pub use reading::read_back;
