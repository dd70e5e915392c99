//! What the contract of the judge decides: theorems, each the contract of a function that does nothing.
ghost use Rattle.judge.specs.Theorems.{JudgeDetermined, JudgeNumbered};

/// The contract of `judge` leaves no choice: two results that it allows coincide (`judge-determined`).
pub fn judging_is_determined()
    ensures { JudgeDetermined }
{}

/// What `judge` answers has the number of its outcome: 0, or that of the refusal (`judge-numbered`).
pub fn judging_is_numbered()
    ensures { JudgeNumbered }
{}
