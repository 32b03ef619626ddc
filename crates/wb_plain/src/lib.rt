//! Instructions that are no jumps: what a machine does at constants, numeric operations, locals, globals, memory, and at
//! `drop` and `select`.
//!
//! Each has a call here, which carries it out on a state ([`wb_state`]) and answers what it comes to. The contract of a
//! call is the effect of its instruction: the state that is left, a trap, or no effect where no rule applies. An effect is
//! one for a room, the most pages to which memory may grow. To [`grow`] the room of a memory is its size: `memory.grow` by
//! 0 gives the size, and by more it gives -1. No call takes memory. [`can_set_global`], [`can_store`] and [`can_grow`] say
//! whether there is an effect, and leave memory and globals as they are.
//!
//! `specs/Effects` says what an instruction does to a state, and [`effects_are_steps`] that this is the step of the
//! definition of execution (`wb_syntax`, `Execute`), as `specs/Follows` says it: for every module, every room of the memory,
//! every configuration that has the locals and the store of the state, and every code that follows.
#![tactic(auto)]

mod accesses;
mod kinds;
mod laws;
mod numeric;
mod outcome;
mod variables;

pub use accesses::{can_grow, can_store, grow, load, size, store};
pub use laws::effects_are_steps;
pub use numeric::{binary, drop_word, put, select, unary};
pub use outcome::{Outcome, TrapKind};
pub use variables::{can_set_global, global_get, global_set, local_get, local_set, local_tee};
