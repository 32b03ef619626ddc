//! Programs of the core: data declarations, meta definitions and object declarations.
#![tactic(auto)]

mod declarations;
mod programs;

pub use declarations::{Ctor, DataDecl};
pub use programs::{CoreDecl, CoreProgram};
