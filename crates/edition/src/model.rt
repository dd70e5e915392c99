//! Files of an edition, and their sheets as they were read.
ghost use Rattle.std.specs.Prelude.{◌≡◌, replicate};
ghost use Rattle.rules.specs.Reports.{Page as PageRead};
ghost use Rattle.edition.specs.Pages.{IsPage, constraintsOf, namesOf};

use rules::{RECORD_WORDS, Shown, Unseen, WORK_WORDS};
use text_sheet::{NotRead, Read};

/// A file of an edition: its name as it is told, and its bytes, or why they can't be had.
#[derive(Clone, Copy)]
pub struct File<'a> {
    pub name: &'a [u8],
    pub text: Result<&'a [u8], Unseen>,
}

/// What a file holds: a set of constraints; a text that is refused; nothing that could be read.
#[derive(Clone, Copy)]
pub enum Content {
    Set(Read),
    Refused(NotRead),
    Unseen(Unseen),
}

impl Content {
    /// How many constraints it has.
    pub fn constraints(self) -> usize
        ensures { result ≡ constraintsOf self }
    {
        match self {
            Content::Set(read) => read.constraints,
            Content::Refused(_) | Content::Unseen(_) => 0,
        }
    }

    /// How many of its names are new: a text that is refused leaves none.
    pub fn names(self) -> usize
        ensures { result ≡ namesOf self }
    {
        match self {
            Content::Set(read) => read.names,
            Content::Refused(_) | Content::Unseen(_) => 0,
        }
    }
}

/// A sheet as it was read: its file's name and text (empty where it can't be had), what it holds, and the records of its set. It carries its page, so that
/// what is told of a sheet is told of a page.
#[derive(Drop)]
pub struct Sheet<'a> {
    pub name: &'a [u8],
    pub text: &'a [u8],
    pub content: Content,
    pub records: Vec<u32>,
    ghost page: { ∥ ((p : PageRead) × IsPage name.now text.now content records.items p) ∥₁ },
}

/// Room to solve and judge a set in: 2,048 records for what is found, and words to work on.
#[derive(Drop)]
pub struct Room {
    pub res: [u32; RECORD_WORDS],
    pub work: [u32; WORK_WORDS],
}

impl Room {
    /// All zero.
    pub fn new() -> Room
        ensures result_zero { result.res ≡ replicate 8192 0 }
        ensures work_zero { result.work ≡ replicate 16384 0 }
    {
        Room {
            res: [0; RECORD_WORDS],
            work: [0; WORK_WORDS],
        }
    }
}

/// How an edition is told: which pages, and whether why a sheet isn't accepted is told behind its page.
#[derive(Clone, Copy)]
pub struct How {
    pub shown: Shown,
    pub why: bool,
}
