// Notes on an edition: what a person should look at, though no verdict rests on it.
ghost use Rattle.std.specs.Prelude.{◌≡◌, ◌≤◌, []};
ghost use Rattle.std.specs.String.{string_bytes};

use crate::found::{Note, notes_on_bytes, notes_on_names, notes_on_structs};
use crate::survey::Survey;
use crate::telling::Told;
use anyhow::Result;
use edition::model::File;
use names::tables::NameTable;
use std::alloc::{AllocError, Global};
use std::fmt::Write;

/// So many notes are written out: one more says how many there are besides.
const WRITTEN: usize = 1000;

/// Notes as lines, and how many there are.
#[derive(Drop)]
pub struct Notes {
    text: String,
    shown: String,
    pub count: usize,
}

impl Notes {
    /// None yet.
    pub fn new(alloc: Global) -> Notes
        ensures count { result.count ≡ 0 }
        ensures shown { string_bytes result.shown ≡ [] }
    {
        Notes {
            text: String::new(alloc),
            shown: String::new(alloc),
            count: 0,
        }
    }

    /// Adds those on files, which were read in this order over a table without names, and on the names that they have there.
    pub fn add(&mut self, names: NameTable, files: &[File]) -> Result<()>
        ensures { self.old.count ≤ self.new.count }
    {
        let alloc = *self.text.allocator();
        let survey = Survey::of(alloc, files)?;
        let told = Told {
            names,
            files,
            survey: &survey,
        };
        self.push(told, &notes_on_bytes(alloc, files)?)?;
        self.push(told, &notes_on_names(alloc, names, &survey)?)?;
        self.push(told, &notes_on_structs(alloc, &survey)?)?;
        self.show()?;
        Ok(())
    }

    // Adds notes: all are counted, and so many written out.
    fn push(&mut self, told: Told, notes: &[Note]) -> Result<()>
        ensures { self.old.count ≤ self.new.count }
    {
        'notes: for note in notes {
            self.count = self.count.saturating_add(1);
            if self.count <= WRITTEN {
                told.push(&mut self.text, *note)?;
            }
        }
        Ok(())
    }

    // Makes what is shown: the notes that are written out, and how many more there are.
    fn show(&mut self) -> Result<(), AllocError>
        ensures { self.new.count ≡ self.old.count }
    {
        self.shown.clear();
        self.shown.push_str(&self.text)?;
        if WRITTEN < self.count {
            let more = self.count - WRITTEN;
            write!(self.shown, "note: {more} more notes are not written out\n")?;
        }
        Ok(())
    }

    /// They, as lines.
    pub fn lines(&self) -> &str
        ensures { result.now ≡ string_bytes self.now.shown }
    {
        &self.shown
    }

    /// Says them on standard error, if anybody hears.
    pub fn tell<R: Eprint>(&self, rt: &R) {
        let _ = rt.eprint(&self.shown);
    }
}
