// Compaction of a table that two offices share: a theorem, the contract of a function that does nothing.
#![tactic(auto)]

ghost use Rattle.theorems_compaction.specs.Theorems.{OfficesCompacted};

/// A set that read alike in two calls still does, whatever sets were handed over beside it; where all of them read alike, the answers and the names that
/// are kept are the same, in the order of each table (`offices-compacted`).
pub fn compacted_alike()
    ensures { OfficesCompacted }
{}
