// Sheets told one after another, and counted.
ghost use Rattle.std.specs.Prelude.{◌≡◌, List, IfOk};
ghost use Rattle.rules.specs.Names.{table_of};
ghost use Rattle.rules.specs.Reports.{Page as PageRead, acceptedIn, findingOf, isAccepted};
ghost use Rattle.edition.specs.Files.{HoldsAll, IsSheet, files_of};
ghost use Rattle.edition.specs.Report.{Counted};
ghost use Rattle.edition_checks.specs.Counts.{CountsApart, CountsTogether, alone, editionFrom};
ghost use Rattle.edition_checks.specs.Given.{given_of, text_of};

use crate::listing::new_names;
use crate::told::{Facts, Line, Report, SheetTold};
use anyhow::Result;
use edition::model::{File, Room, Sheet};
use edition::telling::tell_sheet;
use edition::why::conflict_in;
use edition_checks::files::{Given, lend};
use edition_checks::status::Totals;
use edition_checks::tables::Tables;
use edition_notes::notes::Notes;
use edition_options::options::Options;
use edition_report::lines::{constraint_line, line_in};
use edition_report::pages::Outcome;
use names::tables::NameTable;
use rules::{Refusal, Shown};
use std::alloc::{AllocError, Global};
use text_spell::put_name;

/// What is told so far, and how it is told.
#[derive(Drop)]
pub struct Telling {
    sheets: Vec<SheetTold>,
    notes: Notes,
    room: Room,
    shown: Shown,
    why: bool,
}

impl Telling {
    /// Nothing yet.
    pub fn new(alloc: Global, options: Options) -> Telling {
        Telling {
            sheets: Vec::new(alloc),
            notes: Notes::new(alloc),
            room: Room::new(),
            shown: options.shown,
            why: options.is_why_told(),
        }
    }

    /// All that was told, which comes to these counts.
    pub fn report(self, totals: Totals) -> Report
        ensures { result.totals ≡ totals }
    {
        Report {
            sheets: self.sheets,
            totals,
            notes: self.notes,
        }
    }

    /// Tells of files each over a name table of its own.
    pub fn apart(&mut self, alloc: Global, given: &[Given]) -> Result<Totals>
        ensures { IfOk result (λ t. CountsApart (given_of given.now) t.sheets t.accepted) }
    {
        let mut totals = Totals::NONE;
        for file in given {
            let one = self.one(alloc, file)?;
            totals = totals.and(one.accepted, one.names, 0);
        }
        totals.notes = self.notes.count;
        Ok(totals)
    }

    // Tells of a file over a name table of its own.
    fn one(&mut self, alloc: Global, given: &Given) -> Result<Totals>
        ensures { IfOk result (λ t. Counted t.sheets t.accepted (alone (given.now.name.now, text_of given.now))) }
    {
        self.add(alloc, &[given.file()])
    }

    /// Tells of files over one name table.
    pub fn together(&mut self, alloc: Global, given: &[Given]) -> Result<Totals>
        ensures { IfOk result (λ t. CountsTogether (given_of given.now) t.sheets t.accepted) }
    {
        let files = lend(alloc, given)?;
        self.add(alloc, &files)
    }

    // Tells of files over one name table: what they come to, with all notes so far.
    fn add(&mut self, alloc: Global, files: &[File]) -> Result<Totals>
        ensures { IfOk result (λ t. Counted t.sheets t.accepted (editionFrom (files_of files.now))) }
    {
        let mut tables = Tables::new(alloc)?;
        let sheets = tables.read(alloc, files, &mut self.room)?;
        let names = tables.names()?;
        let accepted = self.add_sheets(names, &sheets)?;
        self.notes.add(names, files)?;
        Ok(Totals {
            sheets: sheets.len(),
            accepted,
            names: tables.count(),
            notes: self.notes.count,
        })
    }

    // Tells of sheets over the table with all names: how many are accepted.
    fn add_sheets(&mut self, names: NameTable, sheets: &[Sheet]) -> Result<usize, AllocError>
        ensures { (ps : List PageRead) → HoldsAll sheets.now ps
            → IfOk result (λ n. n ≡ acceptedIn (table_of names.entry.pool.now names.entry.table.now) ps) }
    {
        let mut accepted = 0;
        let mut first = 0u32;
        for sheet in sheets {
            let told = self.told(names, sheet, first)?;
            accepted += usize::from(told.accepted);
            first = first.saturating_add(new_names(sheet));
            self.show(told)?;
        }
        Ok(accepted)
    }

    // Keeps what is told of a sheet, if it is shown.
    fn show(&mut self, told: SheetTold) -> Result<(), AllocError> {
        if self.shown == Shown::All || !told.accepted {
            self.sheets.push(told)?;
        }
        Ok(())
    }

    // What is told of a sheet, whose new names have the numbers from `first` on.
    fn told(&mut self, names: NameTable, sheet: &Sheet, first: u32) -> Result<SheetTold, AllocError>
        ensures { (p : PageRead) → IsSheet sheet.now p
            → IfOk result (λ t. t.accepted ≡ isAccepted (findingOf (table_of names.entry.pool.now names.entry.table.now) p.content)) }
    {
        let alloc = *self.sheets.allocator();
        let mut page = Vec::new(alloc);
        let outcome = tell_sheet(names, Shown::All, sheet, &mut self.room, &mut page)?;
        Ok(SheetTold {
            name: Vec::from_slice(alloc, sheet.name)?,
            accepted: outcome.is_accepted(),
            facts: Facts::of(outcome, sheet.text),
            constraints: sheet.content.constraints(),
            new: names_from(alloc, names, sheet, first)?,
            page,
            why: self.why_of(alloc, names, sheet, outcome)?,
        })
    }

    // The lines of a sheet that conflict, if they are told.
    fn why_of(
        &mut self,
        alloc: Global,
        names: NameTable,
        sheet: &Sheet,
        outcome: Outcome,
    ) -> Result<Result<Vec<Line>, Refusal>, AllocError> {
        if self.why {
            return conflict_lines(alloc, names, sheet, outcome, &mut self.room);
        }
        Ok(Ok(Vec::new(alloc)))
    }
}

// The lines of a sheet that conflict, or a refusal that was met on the way.
fn conflict_lines(
    alloc: Global,
    names: NameTable,
    sheet: &Sheet,
    outcome: Outcome,
    room: &mut Room,
) -> Result<Result<Vec<Line>, Refusal>, AllocError> {
    let many = match conflict_in(names, sheet, outcome, room) {
        Ok(Some(many)) => many,
        Ok(None) => 0,
        Err(why) => return Ok(Err(why)),
    };
    let mut lines = Vec::new(alloc);
    for place in room.res.iter().take(many) {
        let number = constraint_line(sheet.text, *place as usize);
        lines.push(Line {
            number,
            text: Vec::from_slice(alloc, line_in(sheet.text, number))?,
        })?;
    }
    Ok(Ok(lines))
}

// The new names of a sheet as it may spell them, whose numbers begin with `first`.
fn names_from(
    alloc: Global,
    names: NameTable,
    sheet: &Sheet,
    first: u32,
) -> Result<Vec<Vec<u8>>, AllocError> {
    let mut all = Vec::new(alloc);
    for number in first..first.saturating_add(new_names(sheet)) {
        let mut spelled = Vec::new(alloc);
        put_name(&mut spelled, names.name(number))?;
        all.push(spelled)?;
    }
    Ok(all)
}
