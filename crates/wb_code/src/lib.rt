//! Where the constructs of a flat body lead, known before the body is run.
//!
//! A body lists its instructions flatly, and each construct is closed by its `End` ([`wb_syntax`], `Nesting`). A machine
//! with a program counter has to know where a branch, the first branch of an `if` and an `if` whose condition is zero go
//! on. [`jumps`] finds these places for each instruction of a body, in one pass from its end to its beginning, without
//! recursion.
//!
//! The contract speaks of the code that stands at a place: `levels`, by which `wb_syntax` reads nested code, gives for
//! what is left of a body from an index on the code up to the end of the innermost construct, then the code behind that
//! construct up to the end of the one around it, and so on. `specs/Jumps` says of each instruction which of these its
//! jump leads to.
#![tactic(auto)]

mod leading;
mod pile;

pub use leading::{Jump, NoMemory, jumps};
