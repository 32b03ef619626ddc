// How places and limits are named in a refusal.
ghost use Rattle.std.specs.Prelude.{◌≡◌, Some};
ghost use Rattle.cf_diag.specs.Refusals.{at_text, limit_text};

use cf_base::{At, Limit};
use std::fmt;

/// A place, shown as its offset in bytes, which stands behind `prelude ` where the place lies in the prelude.
#[derive(Clone, Copy, Debug, PartialEq, Eq)]
pub struct Offset(pub At);

impl fmt::Display for Offset {
    ghost output = { λ place. Some (at_text place.0) };

    fn fmt<W: fmt::Write>(&self, f: &mut fmt::Formatter<W>) -> fmt::Result {
        let offset = self.0.offset;
        if self.0.prelude {
            write!(f, "prelude {offset}")
        } else {
            write!(f, "{offset}")
        }
    }
}

/// What there are too many of.
pub fn items(what: Limit) -> &'static str
    ensures { result.now ≡ limit_text what }
{
    match what {
        Limit::Declarations => "declarations",
        Limit::Parameters => "parameters",
        Limit::Constructors => "constructors",
        Limit::Fields => "fields",
        Limit::Arguments => "arguments",
    }
}
