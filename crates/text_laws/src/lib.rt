//! Sheets, written and read: theorems, each the contract of a function that does nothing.
#![tactic(auto)]

ghost use Rattle.text_laws.specs.Theorems.{WrittenAndReadBack, RefusedChangesNothing, RefusedLineIsFirst};

/// Every well formed set is written, in at most 173 bytes a record, and read back to the same records without a new name (`back-again`).
pub fn written_and_read_back()
    ensures { WrittenAndReadBack }
{}

/// A sheet that is refused changes pool, table and result in nothing (`refused-unchanged`).
pub fn refused_changes_nothing()
    ensures { RefusedChangesNothing }
{}

/// The line that is told of a refused sheet is the first bad one, whatever stands behind it (`refused-line`).
pub fn refused_line_is_first()
    ensures { RefusedLineIsFirst }
{}
