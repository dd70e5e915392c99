// What the contracts of the calls on schemes decide: theorems, each the contract of a function that does nothing.
ghost use Rattle.schemes.specs.Theorems.{CallsDetermined, CallsNumbered};

/// The contracts of the calls leave no choice: two results that one of them allows are the same (`CallsDetermined`).
pub fn calls_are_determined()
    ensures { CallsDetermined }
{}

/// What each call answers has the number of its outcome: 0, or that of the refusal (`CallsNumbered`).
pub fn calls_are_numbered()
    ensures { CallsNumbered }
{}
