//! Theorems on `lent`, and on the calls that write records: each is the contract of a function that does nothing.
ghost use Rattle.records_buffers.specs.Theorems.{CallsDetermined, CallsNumbered};

/// The contract of `lent`, and that of any call that writes records, leaves no choice: two results that it allows are the same, the answer and both
/// buffers (`CallsDetermined`).
pub fn calls_are_determined()
    ensures { CallsDetermined }
{}

/// What such a call answers has the number of its outcome: 0, or that of the refusal; a no of `lent` has 10 (`CallsNumbered`).
pub fn calls_are_numbered()
    ensures { CallsNumbered }
{}
