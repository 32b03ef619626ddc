// What the words of a command line ask for.
ghost use Rattle.std.specs.Prelude.{◌≡◌};
ghost use Rattle.cf_words.specs.declared.command.WordsEnd.TheVariants as ends;

use sqlite_items::Items;
use std::alloc::AllocError;
use thiserror::Error;

/// What a command line asks for, with the numbers of its options.
#[derive(Debug, Drop)]
pub enum Command {
    /// `core`: write the core of the source.
    Core {
        /// The most steps that evaluation may take: 1 to 1,000,000,000.
        steps: u64,
    },
    /// `build`: write the module of the source.
    Build {
        /// The most steps that evaluation may take: 1 to 1,000,000,000.
        steps: u64,
        /// The pages of the module's memory, of 65,536 bytes each: 1 to 1,024.
        pages: u32,
    },
    /// `run`: run the module, and write how its run ended.
    Run {
        /// The most words on the stack of the run: 1 to 16,777,216.
        words: u32,
        /// The most steps of the run: 1 to 1,000,000,000,000.
        limit: u64,
        /// The arguments of `main`.
        args: Items<i64>,
    },
}

/// Why there is no command.
#[derive(Clone, Copy, Debug, PartialEq, Eq, Error)]
pub enum WordsEnd {
    /// The words are no command line: the number, from 0, of the first word such that the words up to it begin no command
    /// line; where there is none, as where a number is missing at the end, the number of words.
    #[error("no command line at word {0}")]
    Usage(u32),
    /// Memory ran out, or the number of a word is 2^32 or more.
    #[error("no memory")]
    NoMemory,
}

impl From<AllocError> for WordsEnd {
    ghost from_gives = { λ _ e. e ≡ ends.NoMemory };

    fn from(_error: AllocError) -> WordsEnd {
        WordsEnd::NoMemory
    }
}
