// Theorems on the calls: each is the contract of a function that does nothing.
ghost use Rattle.exponents.specs.Theorems.{CallsDetermined, CallsNumbered, ExamplesComputed};

/// The contracts of the calls leave no choice: two results that one of them allows are the same (`determined`).
pub fn calls_are_determined()
    ensures { CallsDetermined }
{}

/// Each call's refusal has the number that the rules give to its outcome, and a value has 0 (`numbered`).
pub fn calls_are_numbered()
    ensures { CallsNumbered }
{}

/// A few answers, computed: 1/2 - 1/3 is 1/6, the ends of the range, and what is refused (`Examples`).
pub fn examples_come_out()
    ensures { ExamplesComputed }
{}
