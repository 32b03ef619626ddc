//! Reads the tokens of a text as a program.
#![tactic(auto)]

mod actions;
mod applying;
mod atoms;
mod binding;
mod building;
mod declarations;
mod laws;
mod lists;
mod parsing;
mod parts;
mod taking;
mod terms;
mod values;
mod words;

pub use cf_base::Limit;
pub use cf_syntax::ParseEnd;
pub use laws::{keeps_declarations, reads_one};
pub use parsing::parse;
