// The files that a command line names.
ghost use Rattle.std.specs.Prelude.{◌≡◌, true, map, IfOk, IfSome, IsUtf8};

use anyhow::Result;
use edition_checks::files::Given;
use edition_checks::front::Front;
use edition_words::Words;
use rules::Unseen;
use std::alloc::{AllocError, Global};
use std::fs;
use std::rt::Files;
use std::str::from_utf8;

/// The sheets of a command line, by the names of their files.
#[derive(Drop)]
pub struct Named<'a> {
    pub names: &'a [&'a str],
    words: &'a Words,
    // Standard input, where "-" is among the names; it is read before anything is told.
    input: Option<Result<Vec<u8>, Unseen>>,
}

// A text once more.
fn copied(
    alloc: Global,
    text: &Result<Vec<u8>, Unseen>,
) -> Result<Result<Vec<u8>, Unseen>, AllocError> {
    match text {
        Ok(bytes) => Ok(Ok(Vec::from_slice(alloc, bytes)?)),
        Err(why) => Ok(Err(*why)),
    }
}

// The bytes of the file at a path.
fn read_file<R: Files + AllocGlobal>(
    rt: &R,
    path: &str,
    front: &mut Front,
) -> Result<Result<Vec<u8>, Unseen>, AllocError> {
    match fs::open(rt, path) {
        Ok(mut file) => front.read_sheet(rt.alloc(), &mut file),
        Err(_) => Ok(Err(Unseen::NotOpened)),
    }
}

// What comes from standard input.
fn read_input<R: Input + AllocGlobal>(rt: &R) -> Result<Result<Vec<u8>, Unseen>> {
    let alloc = rt.alloc();
    let mut front = Front::new(alloc)?;
    Ok(front.read_sheet(alloc, &mut rt.reader())?)
}

impl<'a> Named<'a> {
    /// Files with these names, of which "-" is standard input. None, where that is named and nothing comes from it: who was to send a sheet has ended.
    pub fn of<R: Input + AllocGlobal>(
        rt: &R,
        names: &'a [&'a str],
        words: &'a Words,
    ) -> Result<Option<Named<'a>>>
        ensures { IfOk result (λ o. IfSome o (λ n. n.names.now ≡ names.now)) }
    {
        let input = if names.contains(&"-") {
            Some(read_input(rt)?)
        } else {
            None
        };
        if let Some(Ok(bytes)) = &input {
            if bytes.is_empty() {
                return Ok(None);
            }
        }
        Ok(Some(Named {
            names,
            words,
            input,
        }))
    }

    /// Reads the file with this name; "-" is standard input.
    pub fn read<R: Files + AllocGlobal>(
        &self,
        rt: &R,
        name: &'a str,
        front: &mut Front,
    ) -> Result<Given<'a>>
        ensures { IfOk result (λ g. g.name.now ≡ name.now) }
    {
        let text = match &self.input {
            Some(text) if name == "-" => copied(rt.alloc(), text)?,
            _ => self.text_of(rt, name, front)?,
        };
        Ok(Given { name, text })
    }

    // The bytes of the file with this name.
    fn text_of<R: Files + AllocGlobal>(
        &self,
        rt: &R,
        name: &str,
        front: &mut Front,
    ) -> Result<Result<Vec<u8>, Unseen>, AllocError> {
        if self.words.is_path(name) {
            return read_file(rt, name, front);
        }
        Ok(Err(Unseen::NotOpened))
    }

    /// Reads all files, one after another.
    pub fn read_all<R: Files + AllocGlobal>(&self, rt: &R) -> Result<Vec<Given<'a>>>
        ensures { IfOk result (λ gs. map (λ g. g.name.now) gs.items ≡ map (λ n. n.now) self.now.names.now) }
    {
        let alloc = rt.alloc();
        let mut front = Front::new(alloc)?;
        let mut given = Vec::with_capacity(alloc, self.names.len())?;
        for name in self.names {
            given.push(self.read(rt, name, &mut front)?)?;
        }
        Ok(given)
    }

    /// Is a sheet's name not shown as it was given, since it isn't UTF-8?
    pub fn is_replaced(&self, name: &[u8]) -> bool
        ensures { ¬ IsUtf8 name.now → result ≡ true }
    {
        match from_utf8(name) {
            Ok(name) => !self.words.is_path(name),
            Err(_) => true,
        }
    }
}
