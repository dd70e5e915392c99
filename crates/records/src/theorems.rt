//! Theorems on the calls: each is the contract of a function that does nothing.
ghost use Rattle.records.specs.Theorems.{CallsDetermined, CallsNumbered};

/// The contracts of the calls leave no choice: two results that one of them allows are the same (`CallsDetermined`).
pub fn calls_are_determined()
    ensures { CallsDetermined }
{}

/// Each call's refusal has the number that the rules give to its outcome, and an answer has 0 (`CallsNumbered`).
pub fn calls_are_numbered()
    ensures { CallsNumbered }
{}
