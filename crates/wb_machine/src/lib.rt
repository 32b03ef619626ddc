//! A machine that runs the exported `main` of a valid module.
//!
//! [`Machine::new`] takes all memory of the runs: words for operands, locals, labels and frames, the memory of the module
//! and its globals, and where each construct leads. [`Machine::call_main`] then takes none. It ends as `run_main` of
//! `wb_syntax` (`Runs`) does, for every module, arguments, words and limit, and leaves the store that this has; the step
//! limit and the room for words are exact. A later call begins anew on the memory and the globals as they stand.
//!
//! Contracts see a machine as its module, its words and its store (`specs/Model`). `specs/Ends` says how the end of a run
//! is answered.
#![tactic(auto)]

mod calling;
mod ends;
mod entry;
mod machine;
mod opening;

pub use ends::{MachineEnd, OpenEnd};
pub use machine::{MOST_PAGES, Machine};
pub use wb_plain::TrapKind;
