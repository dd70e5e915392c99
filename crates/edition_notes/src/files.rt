// What a file's bytes tell, whatever its constraints say.
use edition::model::File;
use edition_report::lines::constraint_line;
use std::alloc::{AllocError, Global};

/// Was a file read, and does none of its lines hold a constraint?
pub(crate) fn is_empty(file: &File) -> bool {
    match file.text {
        Ok(text) => constraint_line(text, 0) == 0,
        Err(_) => false,
    }
}

/// The first of the earlier files with the same bytes, of which there is at least one.
pub(crate) fn same_before(files: &[File], k: usize) -> Option<usize> {
    let text = text_of(files, k);
    if text.is_empty() {
        return None;
    }
    for j in 0..k {
        if text_of(files, j) == text {
            return Some(j);
        }
    }
    None
}

// The bytes of a file; none where they can't be had.
fn text_of<'a>(files: &[File<'a>], k: usize) -> &'a [u8] {
    match files.get(k) {
        Some(file) => match file.text {
            Ok(text) => text,
            Err(_) => &[],
        },
        None => &[],
    }
}

/// The lines that hold constraints, by their numbers.
pub(crate) fn constraint_lines(alloc: Global, text: &[u8]) -> Result<Vec<usize>, AllocError> {
    let mut lines = Vec::new(alloc);
    for (k, line) in text.split(|b| *b == b'\n').enumerate() {
        match first_byte(line) {
            None | Some(b'-') => {}
            Some(_) => lines.push(k.saturating_add(1))?,
        }
    }
    Ok(lines)
}

/// The lines that are comments with a line end in them that is no line feed, by their numbers: what is shown below such a line end is part of the comment.
pub(crate) fn hiding_lines(alloc: Global, text: &[u8]) -> Result<Vec<usize>, AllocError> {
    let mut lines = Vec::new(alloc);
    for (k, line) in text.split(|b| *b == b'\n').enumerate() {
        if is_comment(line) && has_line_end(line) {
            lines.push(k.saturating_add(1))?;
        }
    }
    Ok(lines)
}

// The first byte of a line that is no blank.
fn first_byte(line: &[u8]) -> Option<u8> {
    for b in line {
        if !is_blank(*b) {
            return Some(*b);
        }
    }
    None
}

fn is_blank(b: u8) -> bool {
    matches!(b, b' ' | b'\t' | b'\r')
}

fn is_comment(line: &[u8]) -> bool {
    for (k, b) in line.iter().enumerate() {
        if !is_blank(*b) {
            return matches!(line.get(k..), Some([b'-', b'-', ..]));
        }
    }
    false
}

// Has a line a line end in it: a carriage return that isn't its last byte, a vertical tab, a form feed, U+0085, U+2028 or U+2029?
fn has_line_end(line: &[u8]) -> bool {
    for (k, b) in line.iter().enumerate() {
        if matches!(*b, b'\r' | 0x0b | 0x0c | 0xc2 | 0xe2) && begins_with_line_end(line.get(k..)) {
            return true;
        }
    }
    false
}

fn begins_with_line_end(bytes: Option<&[u8]>) -> bool {
    matches!(
        bytes,
        Some([b'\r', _, ..] | [0x0b | 0x0c, ..] | [0xc2, 0x85, ..] | [0xe2, 0x80, 0xa8 | 0xa9, ..])
    )
}
