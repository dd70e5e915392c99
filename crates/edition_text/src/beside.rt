// What is told beside the pages: names, notes, and what is kept.
use crate::certificate::Certificate;
use anyhow::Result;
use edition::model::File;
use edition_checks::files::Given;
use edition_checks::tables::Tables;
use edition_notes::notes::Notes;
use edition_options::options::Options;
use edition_told::listing::list;
use std::alloc::Global;

/// The names of the sheets so far as they are listed, and what is kept of them.
#[derive(Drop)]
pub(crate) struct Beside {
    pub(crate) listed: Vec<u8>,
    pub(crate) kept: Certificate,
}

impl Beside {
    /// Of no sheet.
    pub(crate) fn new(alloc: Global) -> Beside {
        Beside {
            listed: Vec::new(alloc),
            kept: Certificate::new(alloc),
        }
    }

    /// Takes in a sheet that is over a table of its own, as far as that was asked for, and says what is noted: so many notes.
    pub(crate) fn add<R: Eprint + AllocGlobal>(
        &mut self,
        rt: &R,
        given: &Given,
        tables: &Tables,
        options: Options,
    ) -> Result<usize> {
        let files = [given.file()];
        if options.names {
            self.listed.extend_from_slice(&list(rt.alloc(), &files)?)?;
        }
        let noted = note(rt, tables, &files)?;
        if options.certificate.is_some() {
            self.kept.add(rt.alloc(), &files)?;
        }
        Ok(noted)
    }
}

/// Says what is noted on files and on the names of their table: so many notes.
pub(crate) fn note<R: Eprint + AllocGlobal>(
    rt: &R,
    tables: &Tables,
    files: &[File],
) -> Result<usize> {
    let mut notes = Notes::new(rt.alloc());
    notes.add(tables.names()?, files)?;
    notes.tell(rt);
    Ok(notes.count)
}
