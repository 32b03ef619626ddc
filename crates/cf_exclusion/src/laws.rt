//! Laws of answers and refusals, each proved as the contract of a function that does nothing.

ghost use Rattle.cf_exclusion.specs.Laws.{
  OneLexed,
  RefusesNoProgram,
  OneRefusalOfTokens,
  ReadsAsOne,
  RefusesNoRead,
  OneRefusalOfSource,
  OneCore,
  RefusesNoCore,
  OneRefusalOfCore,
  RefusesNoBuilt,
  OneRefusalOfBuild,
  RefusesNoRun,
  RunsToOne,
  OneRefusalOfRun,
};

use cf_grammar::one_choice;
use cf_lex::lexes_one;
use cf_parse::reads_one;
use wb_syntax::{decoded_exactly, encodes_one};
use wb_valid::first_is_one;

/// A text has one answer: its tokens, or why it has none.
pub fn one_lexed()
    ensures { OneLexed }
{
    lexes_one();
}

/// Tokens that read as a program are refused for want of memory alone.
pub fn refuses_no_program()
    ensures { RefusesNoProgram }
{}

/// There is one reason at most why tokens are no program.
pub fn one_refusal_of_tokens()
    ensures { OneRefusalOfTokens }
{
    one_choice();
}

/// A source reads as one program at most.
pub fn reads_as_one()
    ensures { ReadsAsOne }
{
    lexes_one();
    reads_one();
}

/// A source that reads as a program is unread for want of memory alone.
pub fn refuses_no_read()
    ensures { RefusesNoRead }
{
    lexes_one();
}

/// There is one reason at most why a source is unread.
pub fn one_refusal_of_source()
    ensures { OneRefusalOfSource }
{
    lexes_one();
    one_choice();
}

/// A source has one text of its core at most.
pub fn one_core()
    ensures { OneCore }
{
    reads_as_one();
}

/// A source with a core is refused for want of memory alone.
pub fn refuses_no_core()
    ensures { RefusesNoCore }
{
    reads_as_one();
    refuses_no_read();
}

/// There is one reason at most why a source has no core.
pub fn one_refusal_of_core()
    ensures { OneRefusalOfCore }
{
    reads_as_one();
    refuses_no_read();
    one_refusal_of_source();
}

/// A source from which a module is built is refused for want of memory alone.
pub fn refuses_no_built()
    ensures { RefusesNoBuilt }
{
    reads_as_one();
    refuses_no_read();
}

/// There is one reason at most why nothing is built from a source.
pub fn one_refusal_of_build()
    ensures { OneRefusalOfBuild }
{
    reads_as_one();
    refuses_no_read();
    one_refusal_of_source();
}

/// Bytes that are run to an end are refused for want of memory alone.
pub fn refuses_no_run()
    ensures { RefusesNoRun }
{
    decoded_exactly();
    first_is_one();
}

/// Bytes are run to one end at most.
pub fn runs_to_one()
    ensures { RunsToOne }
{
    encodes_one();
}

/// There is one reason at most why bytes are not run to an end.
pub fn one_refusal_of_run()
    ensures { OneRefusalOfRun }
{
    decoded_exactly();
    first_is_one();
}
