//! Lines of text: where each ends, where a refusal in one is told, and what reading all of them leaves.
#![tactic(auto)]

ghost use Rattle.text_columns.specs.Theorems.{ColumnInLine, PlaceInText, ReadIsReadBack};

pub mod inner;

/// Where a line is refused, the column that is told is one of the line's, or that of its end (`refused-in`).
pub fn refusals_stay_in_the_line()
    ensures { ColumnInLine }
{}

/// What was read from a sheet is what is read from its words, over whatever table they are read, if anything is: at most 2,048 constraints. A table that was
/// well formed still is, with at most 256 new names, and over it each call that takes a set takes these words (`read-back`, `read-few`, `read-keeps-good`,
/// `read-sound`).
pub fn what_is_read_is_read_back()
    ensures { ReadIsReadBack }
{}

/// Where a sheet is refused, line and column are places of the text, or of its end (`refused-within`).
pub fn refusals_stay_in_the_text()
    ensures { PlaceInText }
{}
