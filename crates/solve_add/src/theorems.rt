// What the contract of adding decides: theorems, each the contract of a function that does nothing.
ghost use Rattle.solve_add.specs.Theorems.{AddDetermined, AddNumbered};

/// The contract of `add` leaves no choice: two results that it allows coincide (`add-determined`).
pub fn adding_is_determined()
    ensures { AddDetermined }
{}

/// What `add` answers has the number of its outcome: 0, or that of the refusal (`add-numbered`).
pub fn adding_is_numbered()
    ensures { AddNumbered }
{}
