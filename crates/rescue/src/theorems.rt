//! What is promised of rescues beyond one call: theorems, each the contract of a function that does nothing.
ghost use Rattle.rescue.specs.Theorems.{EveryRecordAccounted, KeptIsASet, GoodFileStays};
ghost use Rattle.rescue.specs.Theorems.{RescuedAgain, EveryFileAnswered, RescueDetermined, RescueNumbered};

/// Kept and skipped together are every record of the file, in order, and each lost record is named by how many stand before it (`every-record`,
/// `all-counted`, `named`).
pub fn every_record_is_accounted_for()
    ensures { EveryRecordAccounted }
{}

/// What is kept is a well formed set: every call gets past its tests of the list, and solving never refuses it with 1 (`kept-well`, `kept-passes`,
/// `kept-solved`, `never-1`).
pub fn kept_is_a_set()
    ensures { KeptIsASet }
{}

/// A file that was good comes out the same, with an empty list of places (`good-same`; of the call `good-outcome`).
pub fn good_file_stays()
    ensures { GoodFileStays }
{}

/// Rescuing what was rescued changes nothing (`rescue-again`).
pub fn rescued_again_is_the_same()
    ensures { RescuedAgain }
{}

/// Every file within the limits is answered, whatever its bytes are (`handled`).
pub fn every_file_is_answered()
    ensures { EveryFileAnswered }
{}

/// The contract of `rescue` leaves no choice (`rescue-determined`).
pub fn rescue_is_determined()
    ensures { RescueDetermined }
{}

/// What `rescue` answers has the number of its outcome (`rescue-numbered`).
pub fn rescue_is_numbered()
    ensures { RescueNumbered }
{}
