// The files of an edition.
ghost use Rattle.std.specs.Prelude.{◌≡◌, IfOk};
ghost use Rattle.edition.specs.Files.{files_of, text_of as lent_text};
ghost use Rattle.edition_checks.specs.Given.{given_of, text_of};

use edition::model::File;
use rules::Unseen;
use std::alloc::{AllocError, Global};

/// A file that was named, and its bytes, or why they can't be had.
#[derive(Drop)]
pub struct Given<'a> {
    pub name: &'a str,
    pub text: Result<Vec<u8>, Unseen>,
}

impl<'a> Given<'a> {
    /// It, lent.
    pub fn file(&self) -> File<'_>
        ensures name { result.name.now ≡ self.now.name.now }
        ensures text { lent_text result ≡ text_of self.now }
    {
        File {
            name: self.name.as_bytes(),
            text: match &self.text {
                Ok(text) => Ok(text.as_slice()),
                Err(why) => Err(*why),
            },
        }
    }
}

/// These files, lent.
pub fn lend<'g>(alloc: Global, given: &'g [Given<'_>]) -> Result<Vec<File<'g>>, AllocError>
    ensures { IfOk result (λ fs. files_of fs.items ≡ given_of given.now) }
{
    let mut files = Vec::with_capacity(alloc, given.len())?;
    for g in given {
        files.push(g.file())?;
    }
    Ok(files)
}
