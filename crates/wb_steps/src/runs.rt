//! Laws of runs, of the steps that they are made of, and of states.

ghost use Rattle.wb_steps.specs.Moves.{
  StepIsMade,
  LastStepIsMade,
  NoStepStays,
  StepsFollow,
  EndFollows,
  StepsPart,
  EndStays,
  StepsWithMoreWords,
  EndWithMoreWords,
};
ghost use Rattle.wb_steps.specs.Runs.{
  RunsPart,
  RunsWithMoreWords,
  RunsGoOn,
  RunsEnd,
  RunsGoOnOrFill,
  RunsEndOrFill,
  FullIsLess,
  FullIsLessAtEnd,
  NoEndBefore,
  RunningHasCome,
  EndHasCome,
  FullExactly,
};
ghost use Rattle.wb_steps.specs.States.{
  WordsOfState,
  WordsInLabel,
  WordsInCall,
  ConstantIs32,
  ConstantIs64,
  MainBegins,
};

/// Steps that follow one another are steps, and an end comes after them; what few words suffice for, more do.
pub fn sequences()
    ensures step { StepIsMade }
    ensures last { LastStepIsMade }
    ensures none { NoStepStays }
    ensures follow { StepsFollow }
    ensures end { EndFollows }
    ensures part { StepsPart }
    ensures stays { EndStays }
    ensures words { StepsWithMoreWords }
    ensures end_words { EndWithMoreWords }
{}

/// A run is one of fewer steps and then one of the others; with more words it is the same, unless it was full. It is full
/// exactly where it comes to a state of more words than it has.
pub fn runs_exactly()
    ensures part { RunsPart }
    ensures words { RunsWithMoreWords }
    ensures running { RunningHasCome }
    ensures answered { EndHasCome }
    ensures full { FullExactly }
{}

/// What steps from states of at most so many words come to is what a run comes to that has these words, and what any
/// other run comes to unless it is full.
pub fn bounded_runs()
    ensures go_on { RunsGoOn }
    ensures end { RunsEnd }
    ensures go_on_or_fill { RunsGoOnOrFill }
    ensures end_or_fill { RunsEndOrFill }
    ensures less { FullIsLess }
    ensures less_at_end { FullIsLessAtEnd }
    ensures no_end { NoEndBefore }
{}

/// The words of a state at a place, behind a label and in a call; constants, which take no step; the first state of a run.
pub fn states()
    ensures words { WordsOfState }
    ensures label { WordsInLabel }
    ensures call { WordsInCall }
    ensures constant32 { ConstantIs32 }
    ensures constant64 { ConstantIs64 }
    ensures main { MainBegins }
{}
