//! The grammar of the language over the classes of tokens, and a walk over the tokens of a text that refuses exactly.
#![tactic(auto)]

mod atoms;
mod beginning;
mod choosing;
mod classes;
mod declarations;
mod endings;
mod kinds;
mod laws;
mod limits;
mod lists;
mod opening;
mod parts;
mod phrases;
mod productions;
mod stacking;
mod terms;
mod turning;
mod walking;

pub use beginning::{
    begins_argument, begins_atom, begins_binder, begins_constant, begins_declaration, begins_head,
    begins_term,
};
pub use choosing::production;
pub use classes::Class;
pub use endings::{Ending, Fault};
pub use laws::{apart, items_first, one_choice, one_derivation, one_ending};
pub use limits::over;
pub use phrases::{Phrase, Symbol};
pub use productions::{Production, Step};
pub use walking::{Walked, walk};
