//! The state of a run.

use crate::piles::{Callers, Labels};
use wb_plain::TrapKind;
use wb_state::{State, Word};

/// A construct that is open.
#[derive(Clone, Copy, Debug, PartialEq, Eq)]
pub struct Label {
    /// Whether a branch to it carries a word.
    pub carries: bool,
    /// Where a branch to it leads, in the body.
    pub target: usize,
    /// How many words there were where it was entered.
    pub height: usize,
    /// How many of them stood below the floor.
    pub floor: usize,
}

/// A place in a function that is run.
#[derive(Clone, Copy, Debug, PartialEq, Eq)]
pub struct Place {
    /// The function, by its index.
    pub func: usize,
    /// The next instruction, by its index in the body.
    pub at: usize,
    /// Whether the function has a result.
    pub results: bool,
    /// How many labels the frames around have.
    pub labels: usize,
    /// How many words the frames around have.
    pub bottom: usize,
}

/// A frame that waits for the one that it called.
#[derive(Clone, Copy, Debug, PartialEq, Eq)]
pub struct Caller {
    /// Where it goes on.
    pub place: Place,
    /// The floor of its operands.
    pub floor: usize,
    /// Where its locals begin.
    pub base: usize,
}

/// The state of a run.
#[derive(Drop)]
pub struct Run {
    pub state: State,
    /// The labels of all frames.
    pub labels: Labels,
    /// The frames that wait.
    pub callers: Callers,
    /// The place in the frame that is run.
    pub place: Place,
    /// The result of the first frame, where that was left.
    pub result: Option<Word>,
}

/// What an instruction comes to.
#[derive(Clone, Copy, Debug, PartialEq, Eq)]
pub enum Flow {
    /// A constant was put, which is no step.
    Settles,
    /// A step was made, and the run goes on in the same frame.
    Goes,
    /// A step was made, and the run goes on in another frame.
    Moves,
    /// The run would go on with more words than there is room for.
    Full,
    /// The first frame is left; its result is in the run.
    Finishes,
    Traps(TrapKind),
    /// No rule applies.
    Stuck,
}
