// Sheets of an edition, checked apart: theorems, each the contract of a function that does nothing.
#![tactic(auto)]

ghost use Rattle.theorems_sheets_apart.specs.Theorems.{SheetsApart, EachSheetAsAlone, PagesApart};

/// What becomes of a sheet, read with names, is the same in all editions and over all name tables, where no reading of it meets 3 (`apart`).
pub fn sheets_apart()
    ensures { SheetsApart }
{}

/// So it is what becomes of the sheet by itself, over a table of its own: sheets may be checked on as many machines as there are (`alone`).
pub fn each_sheet_as_alone()
    ensures { EachSheetAsAlone }
{}

/// Its page in a report is the same too, byte for byte, except for how many of its names are new; so is whether it is accepted (`pages`).
pub fn pages_apart()
    ensures { PagesApart }
{}
