//! Why a command is refused, and the text that is written of it.
#![tactic(auto)]

mod laws;
mod modules;
mod places;
mod refusal;
mod text;

pub use laws::lines_differ;
pub use refusal::Refusal;
pub use text::{no_memory_text, refusal_text, write_fault_text};
