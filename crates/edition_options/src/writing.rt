// A file that is made anew. What a disk holds no contract can say.
use anyhow::{Context, Result};
use std::io::{ErrorKind, Write};
use std::rt::Files;
use std::{fs, io};

// May another file be put in the place of what stands at the path: is nothing there, or a regular file and no link to one?
fn is_replaceable<R: Files>(rt: &R, path: &str) -> bool {
    match fs::symlink_metadata(rt, path) {
        Ok(found) => found.is_file(),
        Err(error) => error.kind() == ErrorKind::NotFound,
    }
}

// Writes all bytes into an open file.
fn fill<F: Write>(file: &mut F, bytes: &[u8]) -> io::Result<()> {
    file.write_all(bytes)?;
    file.flush()
}

// Writes a file that isn't there yet; where that fails, none is left.
fn write_new<R: Files>(rt: &R, path: &str, bytes: &[u8]) -> io::Result<()> {
    let mut file = fs::File::create_new(rt, path)?;
    let filled = fill(&mut file, bytes);
    if filled.is_err() {
        let _ = fs::remove_file(rt, path);
    }
    filled
}

/// Writes bytes into a file, which is made anew: beside it, under its name with `.part` behind, and then put in its place, so that what was there is left whole
/// where writing fails or is cut off. A device, a pipe and what a link leads to are written into where they are.
pub fn write_file<R: Files + AllocGlobal>(rt: &R, path: &str, bytes: &[u8]) -> Result<()> {
    if !is_replaceable(rt, path) {
        fill(&mut fs::create(rt, path)?, bytes)?;
        return Ok(());
    }
    let mut part = String::new(rt.alloc());
    part.push_str(path)?;
    part.push_str(".part")?;
    write_new(rt, &part, bytes).context("the file of its name with .part behind can't be made")?;
    fs::rename(rt, &part, path)?;
    Ok(())
}
