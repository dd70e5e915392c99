//! What is promised of compaction beyond one call: theorems, each the contract of a function that does nothing.
ghost use Rattle.compaction.specs.Theorems.{NamesKept, TwiceIsOnce, CompactDetermined, CompactNumbered};

/// The table holds the names that occur, each once and in the old order; each set reads as before, so every call answers it as before; and the next name
/// that is entered goes on where these end (`promised`).
pub fn occurring_names_are_kept()
    ensures { NamesKept }
{}

/// Compacting twice is compacting once (`twice`).
pub fn twice_is_once()
    ensures { TwiceIsOnce }
{}

/// The contract of `compact` leaves no choice (`compact-determined`).
pub fn compact_is_determined()
    ensures { CompactDetermined }
{}

/// What `compact` answers has the number of its outcome (`compact-numbered`).
pub fn compact_is_numbered()
    ensures { CompactNumbered }
{}
