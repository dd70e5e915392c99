//! What an answer of the call that confirms is worth: theorems, each the contract of a function that does nothing.
ghost use Rattle.solve_confirm.specs.Theorems.{ConfirmedIsTrue, ConfirmsJustWhere, ConfirmDetermined, ConfirmNumbered};

/// What `confirm` answers, on any words, makes every given constraint true, with no premise: bindings put in at once, in exact arithmetic
/// (`confirmed-true`).
pub fn confirmed_is_true()
    ensures { ConfirmedIsTrue }
{}

/// It answers just where `solve` accepts and the judge says yes to what `solve` wrote; and what `solve` doesn't accept it answers as `solve` does,
/// whole answers and buffers (`just-where`).
pub fn answers_just_where_both_do()
    ensures { ConfirmsJustWhere }
{}

/// The contract of `confirm` leaves no choice: two results that it allows coincide (`confirm-determined`).
pub fn confirming_is_determined()
    ensures { ConfirmDetermined }
{}

/// What `confirm` answers has the number of its outcome: 5 where constraints remain, 11 for the judge's no (`confirm-numbered`).
pub fn confirming_is_numbered()
    ensures { ConfirmNumbered }
{}
