//! Laws of command lines, each proved as the contract of a function that does nothing.

ghost use Rattle.cf_words.specs.Laws.{OneCommand, OneUsage, LineOrUsage};

/// Words are the line of one command at most.
pub fn one_command()
    ensures { OneCommand }
{}

/// Words are refused at one place at most.
pub fn one_usage()
    ensures { OneUsage }
{}

/// Any words are a command line or are refused at some place, and never both.
pub fn line_or_usage()
    ensures { LineOrUsage }
{}
