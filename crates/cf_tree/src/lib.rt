//! Programs as they are written: trees of the language's forms, with names in place of numbers.
#![tactic(auto)]

mod classes;
mod decls;
mod forms;
mod heads;

pub use classes::{is_explicit, is_hole_free};
pub use decls::{CtorTree, Decl, Program};
pub use forms::{Branch, Definition, Named, Node, Tree};
pub use heads::{Head, Op};
