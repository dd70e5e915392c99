// Solving ends, after a number of rounds that is bounded: theorems, each the contract of a function that does nothing.
#![tactic(auto)]

ghost use Rattle.theorems_ending.specs.Theorems.{SolvingEnds, RoundsBounded, CallsEnd, CeilingHolds};

/// The rounds end by themselves: solving a well formed set is never stopped for want of fuel (`ends`).
pub fn solving_ends()
    ensures { SolvingEnds }
{}

/// With V variables there are at most V + 6,144 x (V + 1) rounds, refused sets included, and at most V of them bind (`ceiling`, `ceiling-sharper`,
/// `ceiling-of-all`, `bindings-at-most`, `bindings-counted`).
pub fn rounds_are_bounded()
    ensures { RoundsBounded }
{}

/// The same of the call `solveCall`, which `solve::solve` equals, whatever is lent; and each of its refusals has a number (`call_ends`).
pub fn calls_end()
    ensures { CallsEnd }
{}

/// What solving reports never passes what `solve_ceiling::ceiling` gives on the same words (`call-ceiling`).
pub fn ceiling_holds()
    ensures { CeilingHolds }
{}
