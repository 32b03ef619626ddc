//! The law of the effects, the contract of a function that does nothing.

ghost use Rattle.wb_plain.specs.Laws.{EffectsFollow, EffectsKeep, EffectsSpare, EffectsAnswer};

/// What an instruction does to a state is what the definition of execution does at it.
///
/// Of `block`, `loop`, `if`, `else` and `end`, which stand in nested code as its own forms, the definition has no step.
pub fn effects_are_steps()
    ensures follow { EffectsFollow }
    ensures keep { EffectsKeep }
    ensures spare { EffectsSpare }
    ensures answer { EffectsAnswer }
{}
