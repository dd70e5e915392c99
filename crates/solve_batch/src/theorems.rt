// What is promised of batches beside the contract of the call: theorems, each the contract of a function that does nothing.
ghost use Rattle.solve_batch.specs.Theorems.{BatchDetermined, BatchNumbered, EachAsAlone, OnlyMoved};

/// Each set of a batch is answered as `solve::solve` answers it by itself, whatever the other sets are (`by_itself`).
pub fn each_set_as_alone()
    ensures { EachAsAlone }
{}

/// The order of the sets, and what else is in a batch, only moves a set's answer (`moved`).
pub fn order_only_moves()
    ensures { OnlyMoved }
{}

/// The contract of the call leaves no choice: two results that it allows coincide, the answer and every buffer (`BatchDetermined`).
pub fn batch_is_determined()
    ensures { BatchDetermined }
{}

/// The call's refusal has the number that the rules give to its outcome, and an answer has 0 (`BatchNumbered`).
pub fn batch_is_numbered()
    ensures { BatchNumbered }
{}
