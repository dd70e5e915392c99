// What the contract of the ceiling decides: theorems, each the contract of a function that does nothing.
ghost use Rattle.solve_ceiling.specs.Theorems.{CeilingDetermined, CeilingNumbered, CeilingHighest};

/// The contract of `ceiling` leaves no choice: two answers that it allows coincide (`ceiling-determined`).
pub fn ceiling_is_determined()
    ensures { CeilingDetermined }
{}

/// What `ceiling` answers has the number of its outcome: 0, or that of the refusal (`ceiling-numbered`).
pub fn ceiling_is_numbered()
    ensures { CeilingNumbered }
{}

/// What `ceiling` answers is at most 256 variables and 1,579,264 rounds, on any words (`answers-highest`).
pub fn ceiling_has_a_highest()
    ensures { CeilingHighest }
{}
