// How a run ends, in a line.
ghost use Rattle.std.specs.Prelude.{◌≡◌, IfOk, Some};
ghost use Rattle.cf_driver.specs.Ends.{code_of, line_text, trap_text};

use cf_base::NoMemory;
use std::alloc::Global;
use std::fmt;

/// How a run ends: with a number, or by a trap.
#[derive(Clone, Copy, Debug, PartialEq, Eq)]
pub enum Line {
    /// With this number.
    Returned(i64),
    /// By this trap.
    Trapped(Word),
}

/// Why a run traps.
#[derive(Clone, Copy, Debug, PartialEq, Eq)]
pub enum Word {
    /// A number was divided by zero.
    DivideByZero,
    /// A quotient has more than 64 bits.
    Overflow,
    /// The program failed by itself: the module says so by the status word 2.
    Failed,
    /// There was no room for a value: the module says so by the status word 1.
    HeapFull,
    /// `unreachable` was reached, and the status word says nothing of it.
    Unreachable,
    /// A load or a store ended past the memory.
    OutOfBounds,
}

impl fmt::Display for Word {
    ghost output = { λ word. Some (trap_text word) };

    fn fmt<W: fmt::Write>(&self, f: &mut fmt::Formatter<W>) -> fmt::Result {
        f.write_str(match self {
            Word::DivideByZero => "divide-by-zero",
            Word::Overflow => "overflow",
            Word::Failed => "failed",
            Word::HeapFull => "heap-full",
            Word::Unreachable => "unreachable",
            Word::OutOfBounds => "out-of-bounds",
        })
    }
}

impl Line {
    /// The status that a program ends with after this line: 3 for a trap, else 0. Takes no memory.
    pub fn code(self) -> u8
        ensures { result ≡ code_of (line_text self) }
    {
        match self {
            Line::Returned(_) => 0,
            Line::Trapped(_) => 3,
        }
    }

    /// The line as it is written, with its line feed, all of it ASCII.
    pub fn text(self, alloc: Global) -> Result<Vec<u8>, NoMemory>
        ensures { IfOk result (λ bytes. bytes.items ≡ line_text self) }
    {
        let line = match self {
            Line::Returned(number) => format!(in alloc; "returned {number}\n"),
            Line::Trapped(word) => format!(in alloc; "trap {word}\n"),
        };
        match line {
            Ok(line) => Ok(line.into_bytes()),
            Err(_) => Err(NoMemory),
        }
    }
}
