//! What a report of an edition is worth: theorems, each the contract of a function that does nothing.
ghost use Rattle.edition.specs.Theorems.{AcceptedSheetsAreTrue, DeniedOnlyWithoutPremise, PagesInLines, ToldLinesConflict, WhysInLines};

/// Every page of an edition that says 'accepted' is true, whatever the files hold: under the bindings and bounds that it prints, put in at once and in
/// exact arithmetic, each constraint of its sheet is true (`edition-true`).
pub fn accepted_sheets_are_true()
    ensures { AcceptedSheetsAreTrue }
{}

/// The judge's no is told only where the premise under which an accepted answer is true fails: a variable that stands in a product of the sheet is bound to
/// what is no dimension and no variable. The constraint whose line is named isn't true under the answer (`edition-denied`).
pub fn denied_only_without_premise()
    ensures { DeniedOnlyWithoutPremise }
{}

/// Every page of an edition is one line that begins with the file's name as it is shown, and lines below it that begin with two blanks, whatever the files
/// are called and hold: no line feed, and no other byte below the blank, stands in any of these lines (`pages-in-lines`).
pub fn pages_in_lines()
    ensures { PagesInLines }
{}

/// So is every page that is followed by its why (`whys-in-lines`).
pub fn whys_in_lines()
    ensures { WhysInLines }
{}

/// The lines that are told under a page conflict: no choice of dimensions for the variables makes all of them true, and without any one of them there is
/// one that does. Each is the line of the sheet that its constraint was read from (`told-conflict`).
pub fn told_lines_conflict()
    ensures { ToldLinesConflict }
{}
