// The numbers that the options of a command line give.
ghost use Rattle.std.specs.Prelude.{◌≡◌, ◌≤◌, is_some};
ghost use Rattle.cf_words.specs.Lines.{command, give, given, greatest, nothing};

use crate::command::Command;
use crate::grammar::{CommandName, OptionName};
use sqlite_items::Items;

/// The numbers that are given for the options so far.
#[derive(Clone, Copy, Debug, PartialEq, Eq)]
pub struct Given {
    /// For `--steps`.
    pub steps: Option<u64>,
    /// For `--pages`.
    pub pages: Option<u32>,
    /// For `--words`.
    pub words: Option<u32>,
    /// For `--limit`.
    pub limit: Option<u64>,
}

impl Given {
    /// No number for any option.
    pub fn nothing() -> Given
        ensures { result ≡ nothing }
    {
        Given {
            steps: None,
            pages: None,
            words: None,
            limit: None,
        }
    }

    /// Whether a number is given for the option.
    pub fn has(self, option: OptionName) -> bool
        ensures { result ≡ is_some (given option self) }
    {
        match option {
            OptionName::Steps => self.steps.is_some(),
            OptionName::Pages => self.pages.is_some(),
            OptionName::Words => self.words.is_some(),
            OptionName::Limit => self.limit.is_some(),
        }
    }

    /// With this number for the option.
    pub fn with(self, option: OptionName, number: u64) -> Given
        requires { number ≤ greatest option }
        ensures { result ≡ give option number self }
    {
        match option {
            OptionName::Steps => Given {
                steps: Some(number),
                ..self
            },
            OptionName::Pages => Given {
                pages: Some(number as u32),
                ..self
            },
            OptionName::Words => Given {
                words: Some(number as u32),
                ..self
            },
            OptionName::Limit => Given {
                limit: Some(number),
                ..self
            },
        }
    }

    /// The command of this name, with these numbers and the defaults, and with these arguments where it takes any.
    pub fn command(self, name: CommandName, args: Items<i64>) -> Command
        ensures { result ≡ command name self args }
    {
        let steps = self.steps.unwrap_or(1_000_000);
        match name {
            CommandName::Core => Command::Core { steps },
            CommandName::Build => Command::Build {
                steps,
                pages: self.pages.unwrap_or(16),
            },
            CommandName::Run => Command::Run {
                words: self.words.unwrap_or(2_097_152),
                limit: self.limit.unwrap_or(100_000_000),
                args,
            },
        }
    }
}
