//! The core as text, in the language's own notation.
//!
//! A declaration becomes a list of printed tokens first, and then these are spelled with a space between two neighbours where
//! they need one.
#![tactic(auto)]

mod branches;
mod forms;
mod groups;
mod laws;
mod layouts;
mod lines;
mod lists;
mod naming;
mod numerals;
mod pieces;
mod printing;
mod scopes;
mod spelling;
mod writing;

pub use cf_base::NoMemory;
pub use laws::marks_are_read;
pub use writing::core_text;
