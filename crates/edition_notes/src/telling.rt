// Notes as lines.
use crate::found::Note;
use crate::places::shared_places;
use crate::shown::{as_seen, push_shown, push_spelled};
use crate::survey::Survey;
use anyhow::Result;
use edition::model::File;
use edition_structs::{Differing, Place};
use names::tables::NameTable;
use std::alloc::{AllocError, Global};
use std::fmt::Write;
use std::str::from_utf8;

/// What notes speak of.
#[derive(Clone, Copy)]
pub(crate) struct Told<'a> {
    pub names: NameTable<'a>,
    pub files: &'a [File<'a>],
    pub survey: &'a Survey,
}

impl Told<'_> {
    /// Adds a note's lines.
    pub(crate) fn push(&self, out: &mut String, note: Note) -> Result<()> {
        match note {
            Note::Empty(k) => self.push_file(out, k, ": no line holds a constraint\n"),
            Note::Hiding(k, line) => self.push_hiding(out, k, line),
            Note::Same(first, other) => self.push_same(out, first, other),
            Note::Alike(first, second) => self.push_alike(out, first, second),
            Note::Unseen(number) => {
                out.push_str("note: a name has characters that are not seen\n")?;
                self.push_name(out, number, number)
            }
            Note::AsWritten(k) => self.push_file(
                out,
                k,
                ": its structs are compared as they are written: with its bindings put in it is refused\n",
            ),
            Note::Structs(differing) => self.push_structs(out, differing),
        }
    }

    // The name of a file; none where there is no such file.
    fn file(&self, k: usize) -> &[u8] {
        match self.files.get(k) {
            Some(file) => file.name,
            None => &[],
        }
    }

    // A file, and what is noted of it.
    fn push_file(&self, out: &mut String, k: usize, what: &str) -> Result<()> {
        out.push_str("note: ")?;
        push_shown(out, self.file(k))?;
        out.push_str(what)?;
        Ok(())
    }

    // A comment that hides lines.
    fn push_hiding(&self, out: &mut String, k: usize, line: usize) -> Result<()> {
        out.push_str("note: ")?;
        push_shown(out, self.file(k))?;
        write!(
            out,
            ":{line}: a comment holds a line end that is no line feed\n"
        )?;
        Ok(())
    }

    // Two files with the same bytes.
    fn push_same(&self, out: &mut String, first: usize, other: usize) -> Result<()> {
        out.push_str("note: two files hold the same bytes\n  ")?;
        push_shown(out, self.file(first))?;
        out.push_str(", ")?;
        push_shown(out, self.file(other))?;
        out.push('\n')?;
        Ok(())
    }

    // Two structs of one name, and where each is written.
    fn push_structs(&self, out: &mut String, differing: Differing) -> Result<()> {
        out.push_str("note: a struct is written with other fields under the same name\n  ")?;
        push_spelled(out, self.names.name(differing.name))?;
        self.push_place(out, differing.first, ':')?;
        self.push_place(out, differing.other, ',')?;
        out.push('\n')?;
        Ok(())
    }

    // Two names that look alike, each on a line of its own.
    fn push_alike(&self, out: &mut String, first: u32, second: u32) -> Result<()> {
        let alloc = *out.allocator();
        out.push_str(if differ_in_case(alloc, self.names.name(first), self.names.name(second))? {
            "note: two names differ in case alone\n"
        } else {
            "note: two names look alike\n"
        })?;
        self.push_name(out, first, second)?;
        self.push_name(out, second, first)
    }

    // A line with a name, byte by byte and as it is seen, and where it stands first in each file, under marks under which the other stands too.
    fn push_name(&self, out: &mut String, number: u32, other: u32) -> Result<()> {
        let alloc = *out.allocator();
        let name = self.names.name(number);
        out.push_str("  ")?;
        push_spelled(out, name)?;
        if let Some(seen) = as_seen(name) {
            write!(out, " ({seen})")?;
        }
        let places = &self.survey.places;
        let mut mark = ':';
        for place in shared_places(alloc, places.of(number), places.of(other))? {
            self.push_place(out, place, mark)?;
            mark = ',';
        }
        out.push('\n')?;
        Ok(())
    }

    // A place, behind a mark.
    fn push_place(&self, out: &mut String, place: Place, mark: char) -> Result<(), AllocError> {
        write!(out, "{mark} ")?;
        push_shown(out, self.file(place.sheet))?;
        write!(out, ":{}", self.survey.line_of(place))
    }
}

// Are two names the same once each of their characters is in lower case?
fn differ_in_case(alloc: Global, a: &[u8], b: &[u8]) -> Result<bool, AllocError> {
    match (from_utf8(a), from_utf8(b)) {
        (Ok(a), Ok(b)) => Ok(lowered(alloc, a)?.as_str() == lowered(alloc, b)?.as_str()),
        _ => Ok(false),
    }
}

// A text whose characters are in lower case, each by itself.
fn lowered(alloc: Global, text: &str) -> Result<String, AllocError> {
    let mut lower = String::new(alloc);
    for c in text.chars() {
        for changed in c.to_lowercase() {
            lower.push(changed)?;
        }
    }
    Ok(lower)
}
