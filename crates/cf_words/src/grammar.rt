// The commands and their options, as a table.
ghost use Rattle.std.specs.Prelude.{◌≡◌, ◌≢◌, MatchOption};
ghost use Rattle.cf_words.specs.Lines.{command_text, option_text, takes, takes_numbers, greatest};

/// The name of a command.
#[derive(Clone, Copy, Debug, PartialEq, Eq)]
pub enum CommandName {
    /// `core`
    Core,
    /// `build`
    Build,
    /// `run`
    Run,
}

/// The name of an option.
#[derive(Clone, Copy, Debug, PartialEq, Eq)]
pub enum OptionName {
    /// `--steps`
    Steps,
    /// `--pages`
    Pages,
    /// `--words`
    Words,
    /// `--limit`
    Limit,
}

/// The command of this name.
pub fn command_named(word: &str) -> Option<CommandName>
    ensures { MatchOption result ((c : CommandName) → word.now ≢ command_text c) (λ c. word.now ≡ command_text c) }
{
    if word == "core" {
        Some(CommandName::Core)
    } else if word == "build" {
        Some(CommandName::Build)
    } else if word == "run" {
        Some(CommandName::Run)
    } else {
        None
    }
}

/// The option of this name.
pub fn option_named(word: &str) -> Option<OptionName>
    ensures { MatchOption result ((o : OptionName) → word.now ≢ option_text o) (λ o. word.now ≡ option_text o) }
{
    if word == "--steps" {
        Some(OptionName::Steps)
    } else if word == "--pages" {
        Some(OptionName::Pages)
    } else if word == "--words" {
        Some(OptionName::Words)
    } else if word == "--limit" {
        Some(OptionName::Limit)
    } else {
        None
    }
}

impl CommandName {
    /// Whether the option belongs to the command.
    pub fn takes(self, option: OptionName) -> bool
        ensures { result ≡ takes self option }
    {
        match self {
            CommandName::Core => option == OptionName::Steps,
            CommandName::Build => option == OptionName::Steps || option == OptionName::Pages,
            CommandName::Run => option == OptionName::Words || option == OptionName::Limit,
        }
    }

    /// Whether numbers may stand behind the options of the command.
    pub fn takes_numbers(self) -> bool
        ensures { result ≡ takes_numbers self }
    {
        match self {
            CommandName::Core | CommandName::Build => false,
            CommandName::Run => true,
        }
    }
}

impl OptionName {
    /// The greatest number that may be given; the least is 1.
    pub fn greatest(self) -> u64
        ensures { result ≡ greatest self }
    {
        match self {
            OptionName::Steps => 1_000_000_000,
            OptionName::Pages => 1_024,
            OptionName::Words => 16_777_216,
            OptionName::Limit => 1_000_000_000_000,
        }
    }
}
