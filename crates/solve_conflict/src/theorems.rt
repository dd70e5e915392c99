// What an answer of `conflict` is worth: theorems, each the contract of a function that does nothing.
ghost use Rattle.solve_conflict.specs.Theorems.{ConflictsAreTold, NoneOnlyWithChoice, ConflictDetermined};

/// The lines that `conflict` tells conflict: no choice of dimensions makes all of them true, and without any one of them there is one; whatever is lent
/// (`conflicts-told`).
pub fn conflicts_are_told()
    ensures { ConflictsAreTold }
{}

/// It tells none only where a choice of dimensions makes all dimension lines of the set true (`only-with-choice`).
pub fn none_only_with_choice()
    ensures { NoneOnlyWithChoice }
{}

/// The contract of `conflict` leaves no choice: two results that it allows coincide (`conflict-determined`).
pub fn conflict_is_determined()
    ensures { ConflictDetermined }
{}
