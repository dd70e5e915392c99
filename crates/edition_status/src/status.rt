// What a run comes to, and its exit status.
ghost use Rattle.std.specs.Prelude.{◌≡◌, ◌||◌, ◌&&◌, ◌+◌, ◌-◌, ◌^◌, min, ltb, if◌then◌else◌};
ghost use Rattle.edition_status.specs.Status.{code_of, endedAs};

use anyhow::Result;

/// What was counted: sheets, those that are accepted, the names of the fullest table, and notes.
#[derive(Clone, Copy)]
pub struct Totals {
    pub sheets: usize,
    pub accepted: usize,
    pub names: usize,
    pub notes: usize,
}

impl Totals {
    /// Of no sheet.
    pub const NONE: Totals = Totals {
        sheets: 0,
        accepted: 0,
        names: 0,
        notes: 0,
    };

    /// With a sheet more: is it accepted (1) or not (0), how many names has its table, and how many notes are there?
    pub fn and(self, accepted: usize, names: usize, notes: usize) -> Totals
        ensures sheets { result.sheets ≡ min (self.sheets + 1) (2 ^ 64 - 1) }
        ensures accepted { result.accepted ≡ min (self.accepted + accepted) (2 ^ 64 - 1) }
        ensures names { result.names ≡ (if ltb self.names names then names else self.names) }
        ensures notes { result.notes ≡ min (self.notes + notes) (2 ^ 64 - 1) }
    {
        Totals {
            sheets: self.sheets.saturating_add(1),
            accepted: self.accepted.saturating_add(accepted),
            names: if self.names < names {
                names
            } else {
                self.names
            },
            notes: self.notes.saturating_add(notes),
        }
    }
}

/// What a run comes to.
#[derive(Clone, Copy, Debug, PartialEq, Eq)]
pub enum Status {
    /// Every sheet is accepted.
    Accepted,
    /// A sheet isn't accepted, a file that can't be had among them; or, strictly, there is a note.
    Refused,
    /// A mistake on the command line.
    Usage,
    /// There is no whole report: no memory, or what is written can't be passed on.
    NoReport,
}

impl Status {
    /// The exit status.
    pub fn code(self) -> u8
        ensures { result ≡ code_of self }
    {
        match self {
            Status::Accepted => 0,
            Status::Refused => 1,
            Status::Usage => 2,
            Status::NoReport => 3,
        }
    }
}

/// What a whole report comes to: accepted where every sheet is and, strictly, nothing was noted.
pub fn status_of(totals: Totals, strict: bool) -> Status
    ensures { result ≡ (if ltb totals.accepted totals.sheets || (strict && ltb 0 totals.notes) then Status.Refused else Status.Accepted) }
{
    if totals.accepted < totals.sheets || (strict && 0 < totals.notes) {
        return Status::Refused;
    }
    Status::Accepted
}

/// Ends a run: what it comes to. Where it fails there is no whole report, and standard error says why.
pub fn ended<R: Eprint>(rt: &R, outcome: Result<Status>) -> Status
    ensures { result ≡ endedAs outcome }
{
    match outcome {
        Ok(status) => status,
        Err(error) => {
            let _ = eprintln!(rt; "check_edition: {error:#}");
            Status::NoReport
        }
    }
}
