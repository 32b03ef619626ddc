//! Laws of the definitions, each proved as the contract of a function that does nothing.

ghost use Rattle.cf_object.specs.Laws.{EndedStays, RunsGoOn, RunsReach};

/// More steps change nothing of a run that has ended.
pub fn ended_stays()
    ensures { EndedStays }
{}

/// A run is one of the object machine as a machine that steps: it comes to the same states and outcomes, and it goes on from
/// each state that is reached.
pub fn runs_reach()
    ensures same { RunsReach }
    ensures more { RunsGoOn }
{}
