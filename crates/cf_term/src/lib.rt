//! Core terms: the forms of the language with de Bruijn indices, shifting and substitution with their laws.
#![tactic(auto)]

mod closing;
mod comparing;
mod copying;
mod forms;
mod laws;
mod measuring;
mod memory;
mod operations;
mod parts;
mod rebuilding;
mod shifting;
mod substituting;

pub use closing::is_closed;
pub use comparing::same;
pub use copying::copy;
pub use forms::{Branch, Definition, Kept, Term, TermNode};
pub use laws::{
    bare_term_is_closed, closed_among_more, renamed_term_is_closed, renaming_is_substitution,
    renaming_of_closed, renaming_of_substituted, renamings_compose, same_decides, shift_by_nothing,
    shift_of_closed, shifted_term_is_closed, shifts_add, substituted_term_is_closed,
    substitution_is_closed, substitution_of_closed, substitution_of_instance,
    substitution_of_renamed, substitution_of_shifted, substitution_of_variables,
    substitutions_compose,
};
pub use measuring::{nesting, size};
pub use operations::Op;
pub use parts::Part;
pub use shifting::shift;
pub use substituting::subst;
