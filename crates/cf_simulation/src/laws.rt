//! Laws of machines that follow one another.

ghost use Rattle.std.specs.Prelude.{ℕ};
ghost use Rattle.cf_simulation.specs.Laws.{FollowsKeeps, KeepsThrough, StepsAddUp, WeightsAddUp};

/// How two machines are related: states `S` and `T`, outcomes `O` and `P`.
pub trait Related<S, O, T, P> {
    // Outcomes that agree.
    ghost agrees: { O → P → Type 0 };

    // States that stand beside one another.
    ghost beside: { S → T → Type 0 };
}

/// How one machine follows another: by a relation of their states and of the steps saved so far.
pub trait Simulated<S, O, T, P>: Related<S, O, T, P> {
    // The states are related, and so many steps were saved.
    ghost related: { S → T → ℕ → Type 0 };
}

/// A run of more steps goes on from where the run of fewer has come to, and weighs what both weigh.
pub fn steps_add_up<S, O>()
    ensures runs { StepsAddUp S O }
    ensures weights { WeightsAddUp S O }
{}

/// What follows a machine step by step keeps its runs.
pub fn follows_keeps<S, O, T, P, R: Simulated<S, O, T, P>>()
    ensures { FollowsKeeps R.agrees R.related R.beside }
{}

/// What keeps the runs of a machine that keeps those of another keeps those of the other, and the factors multiply.
pub fn keeps_through<S, O, T, P, U, Q, A: Related<S, O, T, P>, B: Related<T, P, U, Q>>()
    ensures { KeepsThrough A.agrees B.agrees A.beside B.beside }
{}
