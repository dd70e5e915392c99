// Two offices that share one table of names: theorems, each the contract of a function that does nothing.
#![tactic(auto)]

ghost use Rattle.theorems_offices.specs.Theorems.{ReadAlikeAnsweredAlike, ContainsByName, SolvedByNames, OfficesUnmoved};
ghost use Rattle.theorems_offices.specs.Theorems.{TextWrittenAlike, TextReadingsAlike, EngineAlike, RescuesAlike};
ghost use Rattle.theorems_offices.specs.Theorems.{DeedsUnmoved, ReadingKeepsNames};

/// Lists that read alike with names, over two tables, are answered alike by every call (`numbering`).
pub fn read_alike_answered_alike()
    ensures { ReadAlikeAnsweredAlike }
{}

/// Whether a type contains a name is asked of the name, and not of its number (`contains-alike`).
pub fn contains_by_name()
    ensures { ContainsByName }
{}

/// A set is written as the same text, byte for byte, whatever its numbers are (`write-text`).
pub fn text_written_alike()
    ensures { TextWrittenAlike }
{}

/// A sheet that is read over two tables, without meeting 3, is read alike: records with names, or refusal, line and column (`read-text`).
pub fn text_read_alike()
    ensures { TextReadingsAlike }
{}

/// The second engine answers alike what reads alike (`eliminate-alike`).
pub fn eliminated_alike()
    ensures { EngineAlike }
{}

/// Of damaged files whose records read alike the same is kept and skipped (`rescue-alike`).
pub fn rescued_alike()
    ensures { RescuesAlike }
{}

/// Solving numbers, read with their names, is solving the names themselves in the order of their bytes (`solve-by-names`).
pub fn solved_by_names()
    ensures { SolvedByNames }
{}

/// Each office's answers, read with names, do not depend on what the other entered (`unmoved`).
pub fn offices_unmoved()
    ensures { OfficesUnmoved }
{}

/// Where offices enter names and read sheets, in any order: each office's answers, read with names, do not depend on what the other entered or read; and the
/// sheets that it read still read alike at the end (`deeds-unmoved`).
pub fn offices_unmoved_by_sheets()
    ensures { DeedsUnmoved }
{}

/// Reading a sheet takes no number's name away and gives it no other, whether the sheet is accepted or refused (`reading-keeps`).
pub fn reading_keeps_names()
    ensures { ReadingKeepsNames }
{}
