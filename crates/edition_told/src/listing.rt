// The names of sheets: each with the sheet that has it first.
use anyhow::Result;
use edition::model::{File, Room, Sheet};
use edition_checks::tables::Tables;
use edition_report::shown::put_shown;
use names::tables::NameTable;
use std::alloc::Global;
use text_spell::put_name;
use text_spell::sink::Sink;

/// How many new names a sheet has.
pub(crate) fn new_names(sheet: &Sheet) -> u32 {
    u32::try_from(sheet.content.names()).unwrap_or(u32::MAX)
}

// Puts the names of a sheet: those with the numbers from `first` on.
fn put_names<S: Sink>(
    names: NameTable,
    sheet: &Sheet,
    first: u32,
    to: &mut S,
) -> Result<(), S::Error> {
    put_shown(to, sheet.name)?;
    to.put(b": new:")?;
    for number in first..first.saturating_add(new_names(sheet)) {
        to.put(b" ")?;
        put_name(to, names.name(number))?;
    }
    to.put(b"\n")
}

// Puts the names of sheets, a line for each sheet that has new ones.
fn put_all<S: Sink>(names: NameTable, sheets: &[Sheet], to: &mut S) -> Result<(), S::Error> {
    let mut first = 0;
    for sheet in sheets {
        let new = new_names(sheet);
        if 0 < new {
            put_names(names, sheet, first, to)?;
        }
        first = first.saturating_add(new);
    }
    Ok(())
}

/// Lists the new names of each sheet, which is read once more.
pub fn list(alloc: Global, files: &[File]) -> Result<Vec<u8>> {
    let mut tables = Tables::new(alloc)?;
    let mut room = Room::new();
    let sheets = tables.read(alloc, files, &mut room)?;
    let mut listed = Vec::new(alloc);
    put_all(tables.names()?, &sheets, &mut listed)?;
    Ok(listed)
}
