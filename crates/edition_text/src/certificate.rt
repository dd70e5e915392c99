// What an auditor keeps of an edition, as text: of each accepted sheet its digest, and lines that make its constraints true.
use crate::verify::MOST_BYTES;
use anyhow::{Context, Result, bail};
use edition::model::{File, Room};
use edition::telling::tell_sheet;
use edition_certified::Verdict;
use edition_checks::keeping::Keeping;
use edition_checks::tables::Tables;
use edition_notes::shown::push_shown;
use edition_options::options::Options;
use edition_options::output::write_file;
use rules::{Refusal, Shown};
use std::alloc::Global;
use std::fmt::Write;
use std::rt::Files;

/// What is kept of the sheets so far, and a line for each sheet that is accepted and can't be kept.
#[derive(Drop)]
pub(crate) struct Certificate {
    kept: Keeping,
    left_out: String,
    room: Room,
}

impl Certificate {
    /// Of no sheet.
    pub(crate) fn new(alloc: Global) -> Certificate {
        Certificate {
            kept: Keeping::new(alloc),
            left_out: String::new(alloc),
            room: Room::new(),
        }
    }

    /// Adds the files that are accepted over one name table. They are read and solved once more, and what is kept of each is verified before it is added.
    pub(crate) fn add(&mut self, alloc: Global, files: &[File]) -> Result<()> {
        let mut tables = Tables::new(alloc)?;
        let sheets = tables.read(alloc, files, &mut self.room)?;
        let names = tables.names()?;
        for sheet in &sheets {
            let mut page = Vec::new(alloc);
            let outcome = tell_sheet(names, Shown::All, sheet, &mut self.room, &mut page)?;
            if outcome.is_accepted() {
                self.add_sheet(alloc, sheet.name, sheet.text, &page)?;
            }
        }
        Ok(())
    }

    // Adds a sheet that is accepted, by its page, once: a file that was named before is there already. Where it held other bytes then, it is left out.
    fn add_sheet(&mut self, alloc: Global, name: &[u8], text: &[u8], page: &[u8]) -> Result<()> {
        if let Some(verdict) = self.kept.add(alloc, name, text, page)? {
            return self.leave_out(name, verdict);
        }
        if !self.kept.holds(alloc, name, text)? {
            self.begin_left_out(name)?;
            self.left_out
                .push_str("another sheet of that name is in it\n")?;
        }
        Ok(())
    }

    // Begins the line of a sheet that is left out.
    fn begin_left_out(&mut self, name: &[u8]) -> Result<()> {
        push_shown(&mut self.left_out, name)?;
        self.left_out
            .push_str(": accepted, and not in the certificate: ")?;
        Ok(())
    }

    // Leaves out a sheet whose lines don't verify it: they have more records than a sheet may.
    fn leave_out(&mut self, name: &[u8], verdict: Verdict) -> Result<()> {
        self.begin_left_out(name)?;
        match refusal_of(verdict) {
            Some(why) => {
                writeln!(self.left_out, "its lines are refused ({})", why.number())?;
            }
            None => self.left_out.push_str("it isn't verified by its lines\n")?,
        }
        Ok(())
    }

    /// Writes it into the file that was named for it, if one was, which is made anew, and says which sheets aren't in it. Where none is, nothing is written.
    pub(crate) fn write<R: Files + Eprint + AllocGlobal>(
        &self,
        rt: &R,
        options: Options,
    ) -> Result<()> {
        let _ = rt.eprint(&self.left_out);
        match options.certificate {
            Some(_) if self.kept.entries.is_empty() => self.tell_none(rt),
            Some(path) => self.write_into(rt, path)?,
            None => {}
        }
        Ok(())
    }

    // Says that no sheet is accepted, if that is why none is kept: what the file held stays.
    fn tell_none<R: Eprint>(&self, rt: &R) {
        if self.left_out.is_empty() {
            let _ = eprintln!(rt;
                "check_edition: no sheet is accepted: the certificate isn't written"
            );
        }
    }

    // Writes it into a file, which is made anew.
    fn write_into<R: Files + AllocGlobal>(&self, rt: &R, path: &str) -> Result<()> {
        let text = self.kept.text()?;
        if MOST_BYTES < text.len() {
            bail!(
                "the certificate would be longer than 64 MB, and none could judge by it: check the sheets in parts"
            );
        }
        write_file(rt, path, &text).context("the certificate can't be written")
    }

    /// Is each sheet in it that is accepted? Where one isn't, not all is done that was asked for.
    pub(crate) fn is_whole(&self) -> Result<()> {
        if self.left_out.is_empty() {
            return Ok(());
        }
        bail!("not every sheet that is accepted is in the certificate")
    }
}

// Why the lines of a certificate are refused, if they are.
fn refusal_of(verdict: Verdict) -> Option<Refusal> {
    match verdict {
        Verdict::LinesUnread(stop) => Some(stop.why),
        Verdict::Refused(why) => Some(why),
        Verdict::Verified | Verdict::Changed | Verdict::Unread(_) | Verdict::Untrue => None,
    }
}
