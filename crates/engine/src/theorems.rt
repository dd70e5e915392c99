//! What the contract of the second engine decides: theorems, each the contract of a function that does nothing.
ghost use Rattle.engine.specs.Theorems.{EliminateDetermined, EliminateNumbered};

/// The contract of `eliminate` leaves no choice: two results that it allows coincide (`eliminate-determined`).
pub fn elimination_is_determined()
    ensures { EliminateDetermined }
{}

/// What `eliminate` answers has the number of its outcome: 5 where constraints remain (`eliminate-numbered`).
pub fn elimination_is_numbered()
    ensures { EliminateNumbered }
{}
