// What all code shares: the refusals with their numbers, and the limits.
#![tactic(auto)]

pub mod examples;

ghost use Rattle.std.specs.Prelude.{◌≡◌};
ghost use Rattle.rules.specs.Refusals.{number_of};

// A lent list holds at most this many records, and a result buffer at least.
pub const RECORDS: usize = 2048;

pub const RECORD_WORDS: usize = 8192;

pub const WORK_WORDS: usize = 16384;

pub const FACTORS: usize = 64;

pub const NESTED: usize = 64;

pub const NAMES: usize = 256;

pub const NAME_BYTES: usize = 48;

pub const POOL_BYTES: usize = 8192;

pub const TABLE_WORDS: usize = 257;

// The bytes of a sheet's file, at most.
pub const SHEET_BYTES: usize = 1_048_576;

// What a name was before it was entered: nowhere in the table, or held there.
#[derive(Clone, Copy, PartialEq, Eq)]
pub enum Was {
    New,
    Known,
}

// Why a call gives no answer.
#[derive(Clone, Copy, PartialEq, Eq)]
pub enum Refusal {
    Malformed,
    NameLength,
    NoRoom,
    Mixed,
    Unsolved,
    NotDimension,
    OutOfRange,
    TooLarge,
    WrongCount,
    ShortBuffer,
    NotConfirmed,
    NotGrammar,
}

impl Refusal {
    // Its number in the documents.
    pub fn number(self) -> u32
        ensures { result ≡ number_of self }
    {
        match self {
            Refusal::Malformed => 1,
            Refusal::NameLength => 2,
            Refusal::NoRoom => 3,
            Refusal::Mixed => 4,
            Refusal::Unsolved => 5,
            Refusal::NotDimension => 6,
            Refusal::OutOfRange => 7,
            Refusal::TooLarge => 8,
            Refusal::WrongCount => 9,
            Refusal::ShortBuffer => 10,
            Refusal::NotConfirmed => 11,
            Refusal::NotGrammar => 12,
        }
    }
}

// Why a file can't be had: it can't be opened; it can't be read to its end; it is longer than a sheet may be.
#[derive(Clone, Copy, PartialEq, Eq)]
pub enum Unseen {
    NotOpened,
    NotRead,
    TooLong,
}

// Which pages of a report are shown: all, or quietly only those of sheets that aren't accepted.
#[derive(Clone, Copy, PartialEq, Eq)]
pub enum Shown {
    All,
    Quiet,
}
