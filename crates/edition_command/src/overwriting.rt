// What is looked at before anything is written: nothing else is overwritten. What a disk holds no contract can say.
use edition_options::output::{Output, PAGE, path_of};
use filling::fill_front;
use std::io::ErrorKind;
use std::os::unix::fs::MetadataExt;
use std::rt::Files;
use std::{fs, io};

/// How a certificate begins, of whatever version.
const CERTIFICATE: &[u8] = b"check_edition certificate ";

/// May the file be made anew: is it none yet, or no file proper (a device, a pipe), or does it begin as what is written? So an empty file that is there
/// is left, which may be a sheet that nobody has filled in yet. An error where that can't be seen: then something may be there.
pub(crate) fn may_be_written<R: Files>(rt: &R, output: Output) -> io::Result<bool> {
    match fs::metadata(rt, output.path()) {
        Ok(found) if found.is_file() => begins_so(rt, output),
        Ok(_) => Ok(true),
        Err(error) if error.kind() == ErrorKind::NotFound => Ok(true),
        Err(error) => Err(error),
    }
}

// Does the file begin as what is written?
fn begins_so<R: Files>(rt: &R, output: Output) -> io::Result<bool> {
    let begins = match output {
        Output::Certificate(_) => CERTIFICATE,
        Output::Page(_) => PAGE.as_bytes(),
    };
    let mut file = fs::open(rt, output.path())?;
    let mut front = [0u8; 256];
    let (n, read) = fill_front(&mut file, &mut front);
    read?;
    Ok(front[..n].starts_with(begins))
}

/// Is the file at a path one of the sheets with these names: by its name, or as the same file by another path?
pub(crate) fn is_sheet<R: Files>(rt: &R, path: &str, names: &[&str]) -> bool {
    let ours = identity(rt, path);
    for name in names {
        // As the file to write, "-" is a file of that name.
        let sheet = path_of(name);
        if sheet == path || ours.is_some() && identity(rt, sheet) == ours {
            return true;
        }
    }
    false
}

// The device and the inode of a regular file, if one is there.
fn identity<R: Files>(rt: &R, path: &str) -> Option<(u64, u64)> {
    match fs::metadata(rt, path) {
        Ok(found) if found.is_file() => Some((found.dev(), found.ino())),
        _ => None,
    }
}

/// The files that standard output and standard error go into, where these are regular files.
#[derive(Clone, Copy)]
pub(crate) struct Streams {
    output: Option<(u64, u64)>,
    error: Option<(u64, u64)>,
}

impl Streams {
    /// Those of this run.
    pub(crate) fn of<R: Files>(rt: &R) -> Streams {
        Streams {
            output: identity(rt, "/dev/stdout"),
            error: identity(rt, "/dev/stderr"),
        }
    }

    /// Does one of them go into the file at this path?
    pub(crate) fn go_into<R: Files>(self, rt: &R, path: &str) -> bool {
        let there = identity(rt, path);
        there.is_some() && (self.output == there || self.error == there)
    }
}
