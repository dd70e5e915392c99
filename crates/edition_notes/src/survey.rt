// What the sheets of files hold, as they are read once more for their notes.
use crate::bound::{PutIn, put_in};
use crate::files::constraint_lines;
use crate::places::Places;
use anyhow::Result;
use edition::model::{File, Room, Sheet};
use edition_checks::tables::Tables;
use edition_structs::{Differing, Place, differing_structs};
use records::View;
use records::seen::view_at;
use rules::RECORD_WORDS;
use std::alloc::{AllocError, Global};

/// The lines that hold the constraints of each sheet; where the names of sheets stand; which of their structs differ, and in which sheets these are
/// compared as they are written, since a set with its bindings put in is refused.
#[derive(Drop)]
pub(crate) struct Survey {
    lines: Vec<Vec<usize>>,
    pub places: Places,
    pub differing: Vec<Differing>,
    pub as_written: Vec<usize>,
}

impl Survey {
    /// Of these files.
    pub(crate) fn of(alloc: Global, files: &[File]) -> Result<Survey> {
        let mut tables = Tables::new(alloc)?;
        let mut room = Room::new();
        let sheets = tables.read(alloc, files, &mut room)?;
        let mut survey = Survey {
            lines: Vec::new(alloc),
            places: Places::new(alloc, tables.count())?,
            differing: Vec::new(alloc),
            as_written: Vec::new(alloc),
        };
        for (k, sheet) in sheets.iter().enumerate() {
            survey.lines.push(constraint_lines(alloc, sheet.text)?)?;
            survey.places.add_sheet(k, &sheet.records)?;
        }
        survey.compare(alloc, &tables, &sheets, &mut room)?;
        Ok(survey)
    }

    // Compares the structs of sheets.
    fn compare(
        &mut self,
        alloc: Global,
        tables: &Tables,
        sheets: &[Sheet],
        room: &mut Room,
    ) -> Result<(), AllocError> {
        let mut made = vec![in alloc; 0; RECORD_WORDS]?;
        let mut sets = Vec::new(alloc);
        for (k, sheet) in sheets.iter().enumerate() {
            sets.push(self.set_of(alloc, tables, (k, sheet), room, &mut made)?)?;
        }
        let mut lent = Vec::new(alloc);
        for set in &sets {
            lent.push(set.as_slice())?;
        }
        self.differing = differing_structs(alloc, &lent)?;
        Ok(())
    }

    // The set of a sheet that has structs, with its bindings put in where there are any.
    fn set_of(
        &mut self,
        alloc: Global,
        tables: &Tables,
        numbered: (usize, &Sheet),
        room: &mut Room,
        made: &mut [u32],
    ) -> Result<Vec<u32>, AllocError> {
        let (k, sheet) = numbered;
        if !has_struct(&sheet.records) {
            return Ok(Vec::new(alloc));
        }
        match put_in(tables, &sheet.records, room, made) {
            PutIn::Made(records) => {
                if let Some(set) = made.get(..records.saturating_mul(4)) {
                    return Vec::from_slice(alloc, set);
                }
            }
            PutIn::Unsolved => {}
            PutIn::Refused => self.as_written.push(k)?,
        }
        Vec::from_slice(alloc, &sheet.records)
    }

    /// The line of a place.
    pub(crate) fn line_of(&self, place: Place) -> usize {
        let line = match self.lines.get(place.sheet) {
            Some(lines) => lines.get(place.constraint.saturating_sub(1)),
            None => None,
        };
        match line {
            Some(line) => *line,
            None => 0,
        }
    }
}

// Has a sheet a struct?
fn has_struct(records: &[u32]) -> bool {
    for at in 0..records.len() / 4 {
        if matches!(view_at(records, at), View::Struct(_, _, _)) {
            return true;
        }
    }
    false
}
