// What the contract of solving decides: theorems, each the contract of a function that does nothing.
ghost use Rattle.solve.specs.Theorems.{SolveDetermined, SolveNumbered};

/// The contract of `solve` leaves no choice: two results that it allows coincide (`solve-determined`).
pub fn solving_is_determined()
    ensures { SolveDetermined }
{}

/// What `solve` answers has the number of its outcome: 5 where constraints remain (`solve-numbered`).
pub fn solving_is_numbered()
    ensures { SolveNumbered }
{}
