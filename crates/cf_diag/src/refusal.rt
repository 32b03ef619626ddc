// Why a command is refused.

use crate::modules::{PartName, outside};
use crate::places::{Offset, items};
use cf_base::{At, Limit};
use std::fmt;
use wb_decode::What;
use wb_valid::Part;

/// Why a command was refused, in the order in which the causes are looked at. Places are offsets in bytes.
///
/// It is shown in words, and `refusal_text` makes the line of them.
#[derive(Clone, Copy, Debug, PartialEq, Eq)]
pub enum Refusal {
    /// The words are no command line: the number, from 0, of the first word such that the words up to it begin none, or
    /// the number of words.
    Usage(u32),
    /// A read of the input failed.
    ReadFault,
    /// The input has more bytes than the command takes.
    TooLong,
    /// The input is not UTF-8: so many bytes long is its longest beginning that is.
    NotText(u32),
    /// The input is UTF-8, and at this byte no token, blank or comment begins.
    BadChar(u32),
    /// No program begins with the tokens up to this one; the end of the text counts as a last token.
    Syntax(At),
    /// Here begins a phrase that is nested too deep in others.
    TooNested(At),
    /// Here begins one more of these than the limit.
    TooMany(At, Limit),
    /// The literal here is out of its range.
    Literal(At),
    /// The name here is not declared.
    Unknown(At),
    /// The name here is declared already.
    Twice(At),
    /// The program has a form that is not built yet.
    Later,
    /// The module is no bytes of the binary format: 0 where its header is wrong, else the offset of the first section that is
    /// wrong, or the whole length.
    Malformed(u32),
    /// The module has something that is outside the profile, first in the section at this offset.
    Outside(u32, What),
    /// The module is not valid: the first part that is not.
    Invalid(Part),
    /// The module's memory begins with so many pages, which are too many.
    TooMuchMemory(u32),
    /// The module exports no function `main` of whole numbers to one.
    NoMain,
    /// So many arguments are given, and `main` takes so many.
    Arity(u32, u32),
    /// The run goes on after so many steps.
    StepLimit(u64),
    /// The run needs more than so many words on its stack.
    StackFull(u32),
    /// The run has no next step.
    Stuck,
    /// A write of the output failed. What was taken before is a front of the output.
    WriteFault,
    /// Memory ran out.
    NoMemory,
}

impl fmt::Display for Refusal {
    ghost use Rattle.std.specs.Prelude.{Some};
    ghost use Rattle.cf_diag.specs.Refusals.{words};

    ghost output = { λ r. Some (words r) };

    fn fmt<W: fmt::Write>(&self, f: &mut fmt::Formatter<W>) -> fmt::Result {
        match self {
            Refusal::Usage(i) => write!(f, "usage at word {i}"),
            Refusal::ReadFault => f.write_str("read fault"),
            Refusal::TooLong => f.write_str("input too long"),
            Refusal::NotText(n) => write!(f, "not text at {n}"),
            Refusal::BadChar(n) => write!(f, "bad character at {n}"),
            Refusal::Syntax(at) => write!(f, "syntax at {}", Offset(*at)),
            Refusal::TooNested(at) => write!(f, "nested too deep at {}", Offset(*at)),
            Refusal::TooMany(at, what) => {
                write!(f, "too many {} at {}", items(*what), Offset(*at))
            }
            Refusal::Literal(at) => write!(f, "literal out of range at {}", Offset(*at)),
            Refusal::Unknown(at) => write!(f, "unknown name at {}", Offset(*at)),
            Refusal::Twice(at) => write!(f, "declared twice at {}", Offset(*at)),
            Refusal::Later => f.write_str("form not built yet"),
            Refusal::Malformed(n) => write!(f, "malformed at {n}"),
            Refusal::Outside(n, what) => {
                write!(f, "outside the profile at {n}: {}", outside(*what))
            }
            Refusal::Invalid(part) => write!(f, "invalid {}", PartName(*part)),
            Refusal::TooMuchMemory(n) => write!(f, "memory of {n} pages"),
            Refusal::NoMain => f.write_str("no exported main"),
            Refusal::Arity(given, wanted) => write!(f, "arity {given}, wanted {wanted}"),
            Refusal::StepLimit(n) => write!(f, "step limit {n}"),
            Refusal::StackFull(n) => write!(f, "stack full at {n} words"),
            Refusal::Stuck => f.write_str("stuck"),
            Refusal::WriteFault => f.write_str("write fault"),
            Refusal::NoMemory => f.write_str("no memory"),
        }
    }
}
