//! The second engine beside the solver: a theorem, the contract of a function that does nothing.
#![tactic(auto)]

ghost use Rattle.theorems_engine.specs.Theorems.{EnginesAgree};

/// On every input the second engine answers what the solver answers without the rounds, 7 included, or 8 where the set does not fit it; a set that
/// fits is never refused with 8 (`always`, `unfit-answer`, `on-fitting`, `only-7`, `unless-limited`). `engine::eliminate` equals the engine's call.
pub fn engines_agree()
    ensures { EnginesAgree }
{}
