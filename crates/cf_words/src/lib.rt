//! Reads command lines: which command the words ask for, and with which numbers.
//!
//! A command line is the name of a command and behind it options of this command, in any order and each at most once.
//! An option is two words, its name and a number: ASCII digits, zeros may lead. Behind the options of `run` stand whole
//! numbers, the arguments: ASCII digits, or `-` and digits, from -2^63 to 2^63-1, zeros may lead.
//!
//! | Command | Options | Numbers |
//! |---|---|---|
//! | `core` | `--steps` | none |
//! | `build` | `--steps`, `--pages` | none |
//! | `run` | `--words`, `--limit` | any number of them |
//!
//! | Option | Number | Where it is not given |
//! |---|---|---|
//! | `--steps` | 1 to 1,000,000,000 | 1,000,000 |
//! | `--pages` | 1 to 1,024 | 16 |
//! | `--words` | 1 to 16,777,216 | 2,097,152 |
//! | `--limit` | 1 to 1,000,000,000,000 | 100,000,000 |
#![tactic(auto)]

mod command;
mod given;
mod grammar;
mod laws;
mod numbers;
mod reading;

pub use command::{Command, WordsEnd};
pub use laws::{line_or_usage, one_command, one_usage};
pub use reading::read_words;
