// How what is wrong with a module is named in a refusal.
ghost use Rattle.std.specs.Prelude.{◌≡◌, Some};
ghost use Rattle.cf_diag.specs.Refusals.{part_text, what_text};

use std::fmt;
use wb_decode::What;
use wb_valid::Part;

/// What stands outside the profile.
pub fn outside(what: What) -> &'static str
    ensures { result.now ≡ what_text what }
{
    match what {
        What::Import => "import",
        What::Table => "table",
        What::Start => "start",
        What::Element => "element",
        What::DataPart => "data",
        What::Float => "float",
    }
}

/// A part of a module, shown by its kind and, where there are many of it, its number.
#[derive(Clone, Copy, Debug, PartialEq, Eq)]
pub struct PartName(pub Part);

impl fmt::Display for PartName {
    ghost output = { λ part. Some (part_text part.0) };

    fn fmt<W: fmt::Write>(&self, f: &mut fmt::Formatter<W>) -> fmt::Result {
        match self.0 {
            Part::FuncType(n) => write!(f, "function type {n}"),
            Part::Memories => f.write_str("memories"),
            Part::MemoryLimits => f.write_str("limits"),
            Part::GlobalInit(n) => write!(f, "global {n}"),
            Part::ExportOf(n) => write!(f, "export {n}"),
            Part::Body(n) => write!(f, "body {n}"),
        }
    }
}
