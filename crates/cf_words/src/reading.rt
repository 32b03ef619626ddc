// Reads a command line word by word.
ghost use Rattle.std.specs.Prelude.{◌≡◌, ◌++◌, IfErr, IfOk, MatchOption, OnOk, map};
ghost use Rattle.std.specs.String.{string_bytes};
ghost use Rattle.cf_words.specs.Lines.{IsInRange, IsLine, IsRefused};
ghost use Rattle.cf_words.specs.Reading.{Goes, TakesNumber, final, to, numbers_of, IsUsageAt};

use crate::command::{Command, WordsEnd};
use crate::given::Given;
use crate::grammar::{CommandName, OptionName, command_named, option_named};
use crate::numbers::{number_up_to, whole_number};
use sqlite_items::Items;
use std::alloc::{AllocError, Global};

/// What has been read of a command line, but for the numbers behind the options.
#[derive(Clone, Copy, Debug, PartialEq, Eq)]
pub enum Reading {
    /// Nothing.
    Start,
    /// The command's name, and whole options.
    Options(CommandName, Given),
    /// The same, and behind them an option's name.
    Wants(CommandName, Given, OptionName),
    /// The command's name, its options, and a number or more.
    Numbers(CommandName, Given),
}

/// What one more word leads to.
#[derive(Clone, Copy, Debug, PartialEq, Eq)]
pub struct Step {
    /// What has been read with it.
    pub after: Reading,
    /// The number that it is, where it stands behind the options.
    pub number: Option<i64>,
}

impl Step {
    // To this, by a word that is no number behind the options.
    fn to(after: Reading) -> Step
        ensures { result ≡ to after }
    {
        Step {
            after,
            number: None,
        }
    }
}

// One more number behind the options, where the command takes any.
fn take_number(name: CommandName, given: Given, word: &str) -> Option<Step>
    ensures { MatchOption result ((step : Step) → TakesNumber name given word.now step → ⊥) (λ step. TakesNumber name given word.now step) }
{
    if !name.takes_numbers() {
        return None;
    }
    let number = whole_number(word)?;
    Some(Step {
        after: Reading::Numbers(name, given),
        number: Some(number),
    })
}

impl Reading {
    // What has been read with one more word, if it can go on.
    fn next(self, word: &str) -> Option<Step>
        ensures { MatchOption result ((step : Step) → Goes self word.now step → ⊥) (λ step. Goes self word.now step) }
    {
        match self {
            Reading::Start => {
                let name = command_named(word)?;
                Some(Step::to(Reading::Options(name, Given::nothing())))
            }
            Reading::Options(name, given) => {
                let Some(option) = option_named(word) else {
                    return take_number(name, given, word);
                };
                if name.takes(option) && !given.has(option) {
                    Some(Step::to(Reading::Wants(name, given, option)))
                } else {
                    None
                }
            }
            Reading::Wants(name, given, option) => {
                let number = number_up_to(option.greatest(), word)?;
                Some(Step::to(Reading::Options(name, given.with(option, number))))
            }
            Reading::Numbers(name, given) => take_number(name, given, word),
        }
    }

    // The command, where the line may end here.
    fn command(self, args: Items<i64>) -> Option<Command>
        ensures { result ≡ final self args }
    {
        match self {
            Reading::Options(name, given) | Reading::Numbers(name, given) => {
                Some(given.command(name, args))
            }
            Reading::Start | Reading::Wants(_, _, _) => None,
        }
    }
}

// Puts the number, where there is one, behind the others.
fn keep(args: &mut Items<i64>, number: Option<i64>) -> Result<(), AllocError>
    ensures { OnOk result (args.new ≡ args.old ++ numbers_of number) }
{
    match number {
        Some(z) => args.push(z),
        None => Ok(()),
    }
}

// That the words are no command line, at the word of this number.
fn usage(at: usize) -> WordsEnd
    ensures { IsUsageAt at result }
{
    match u32::try_from(at) {
        Ok(i) => WordsEnd::Usage(i),
        Err(_) => WordsEnd::NoMemory,
    }
}

/// The command that the words are the line of.
///
/// The words are those behind the program's name. `Usage` comes exactly where they are no command line.
pub fn read_words(alloc: Global, words: &[String]) -> Result<Command, WordsEnd>
    ensures line { IfOk result (λ c. IsLine (map (λ w. string_bytes w) words.now) c) }
    ensures range { IfOk result (λ c. IsInRange c) }
    ensures usage { IfErr result (λ end. IsRefused (map (λ w. string_bytes w) words.now) end) }
{
    let mut reading = Reading::Start;
    let mut args = Items::new(alloc);
    for (i, word) in words.iter().enumerate() {
        let Some(step) = reading.next(word.as_str()) else {
            return Err(usage(i));
        };
        reading = step.after;
        keep(&mut args, step.number)?;
    }
    match reading.command(args) {
        Some(command) => Ok(command),
        None => Err(usage(words.len())),
    }
}
