//! What reports promise, each statement the contract of a function that does nothing.
ghost use Rattle.edition_report.specs.Theorems.{AcceptedWhereBothSaySo, LinesAreTheirs, NamesEndNoLine, PagesTellTheTruth};

/// A report says 'accepted' of a sheet where the solver accepts its set and the judge says yes to it, and nowhere else (`report-only`, `report-there`).
pub fn accepted_where_both_say_so()
    ensures { AcceptedWhereBothSaySo }
{}

/// So does each page of an edition, whatever its file holds (`page-only`, `page-there`).
pub fn pages_tell_the_truth()
    ensures { PagesTellTheTruth }
{}

/// No byte of a name that was given, or of a line that is shown, ends a line of a report (`name-flat`).
pub fn names_end_no_line()
    ensures { NamesEndNoLine }
{}

/// The line that is told of a constraint is the one that it was read from (`lines-theirs`).
pub fn lines_are_theirs()
    ensures { LinesAreTheirs }
{}
