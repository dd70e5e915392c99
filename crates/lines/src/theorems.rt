// What the contract of the check of a line decides: theorems, each the contract of a function that does nothing.
ghost use Rattle.lines.specs.Theorems.{CheckLineDetermined, CheckLineNumbered};

/// The contract of `check_line` leaves no choice: two results that it allows coincide (`check-line-determined`).
pub fn checking_is_determined()
    ensures { CheckLineDetermined }
{}

/// What `check_line` answers has the number of its outcome: 11 where the judge says no (`check-line-numbered`).
pub fn checking_is_numbered()
    ensures { CheckLineNumbered }
{}
