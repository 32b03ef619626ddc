//! All that instructions which are no jumps work on.

use crate::globals::Globals;
use crate::locals::Locals;
use crate::memory::Memory;
use crate::operands::Operands;

/// The operands and the locals of a run, and the memory and the globals of its module.
#[derive(Drop)]
pub struct State {
    pub operands: Operands,
    pub locals: Locals,
    /// None where the module has no memory.
    pub memory: Option<Memory>,
    pub globals: Globals,
}
