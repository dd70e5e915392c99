// What is noted of files, before it is told.
use crate::files::{hiding_lines, is_empty, same_before};
use crate::places::share_mark;
use crate::survey::Survey;
use edition::model::File;
use edition_look_alikes::{alike_pairs, with_unseen};
use edition_structs::Differing;
use names::tables::NameTable;
use std::alloc::{AllocError, Global};

/// A note, its files, lines and names by their numbers.
#[derive(Clone, Copy)]
pub(crate) enum Note {
    /// A file without a constraint.
    Empty(usize),
    /// A line of a file that is a comment and hides what is shown below a line end in it.
    Hiding(usize, usize),
    /// Two files with the same bytes.
    Same(usize, usize),
    /// Two names that look alike.
    Alike(u32, u32),
    /// A name with characters that are not seen.
    Unseen(u32),
    /// A file whose structs are compared as they are written.
    AsWritten(usize),
    /// Two structs of one name and the same arguments.
    Structs(Differing),
}

/// Those on files' bytes.
pub(crate) fn notes_on_bytes(alloc: Global, files: &[File]) -> Result<Vec<Note>, AllocError> {
    let mut notes = Vec::new(alloc);
    for (k, file) in files.iter().enumerate() {
        if is_empty(file) {
            notes.push(Note::Empty(k))?;
        }
    }
    for (k, file) in files.iter().enumerate() {
        push_hiding(alloc, &mut notes, k, file)?;
    }
    for k in 0..files.len() {
        if let Some(first) = same_before(files, k) {
            notes.push(Note::Same(first, k))?;
        }
    }
    Ok(notes)
}

// Adds those on a file's comments that hide lines.
fn push_hiding(
    alloc: Global,
    notes: &mut Vec<Note>,
    k: usize,
    file: &File,
) -> Result<(), AllocError> {
    if let Ok(text) = file.text {
        for line in hiding_lines(alloc, text)? {
            notes.push(Note::Hiding(k, line))?;
        }
    }
    Ok(())
}

/// Those on names: that two look alike and stand under one mark; that one has characters that are not seen.
pub(crate) fn notes_on_names(
    alloc: Global,
    names: NameTable,
    survey: &Survey,
) -> Result<Vec<Note>, AllocError> {
    let mut notes = Vec::new(alloc);
    for pair in alike_pairs(alloc, names)? {
        if share_mark(survey.places.of(pair.first), survey.places.of(pair.second)) {
            notes.push(Note::Alike(pair.first, pair.second))?;
        }
    }
    for number in with_unseen(alloc, names)? {
        notes.push(Note::Unseen(number))?;
    }
    Ok(notes)
}

/// Those on structs.
pub(crate) fn notes_on_structs(alloc: Global, survey: &Survey) -> Result<Vec<Note>, AllocError> {
    let mut notes = Vec::new(alloc);
    for k in &survey.as_written {
        notes.push(Note::AsWritten(*k))?;
    }
    for differing in &survey.differing {
        notes.push(Note::Structs(*differing))?;
    }
    Ok(notes)
}
