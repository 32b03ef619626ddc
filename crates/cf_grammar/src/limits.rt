// The limits.
ghost use Rattle.std.specs.Prelude.{◌≡◌};
ghost use Rattle.cf_grammar.specs.Refusing.{from, over};

use crate::endings::Fault;
use crate::phrases::Phrase;
use cf_base::Limit;

// The fault, from a number on.
fn from(least: u32, number: u32, fault: Fault) -> Option<Fault>
    ensures { result ≡ from least number fault }
{
    if number < least { None } else { Some(fault) }
}

/// The limit that a phrase passes, if it passes one.
pub fn over(phrase: Phrase) -> Option<Fault>
    ensures { result ≡ over phrase }
{
    match phrase {
        Phrase::Decl(_, item) => from(4096, item, Fault::Many(Limit::Declarations)),
        Phrase::Param(item) => from(16, item, Fault::Many(Limit::Parameters)),
        Phrase::Ctor(_, item) => from(256, item, Fault::Many(Limit::Constructors)),
        Phrase::Field(_, item) => from(16, item, Fault::Many(Limit::Fields)),
        Phrase::Operand(_, _, item) => from(16, item, Fault::Many(Limit::Arguments)),
        Phrase::Arg(_, _, item) => from(16, item, Fault::Many(Limit::Arguments)),
        Phrase::Term(_, depth) => from(201, depth, Fault::Nested),
        Phrase::Code(_, depth) => from(201, depth, Fault::Nested),
        _ => None,
    }
}
