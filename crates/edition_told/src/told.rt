// What is told of each sheet, for whoever shows it in another form than lines.
ghost use Rattle.std.specs.Prelude.{◌≡◌, ◌++◌, map, IfOk, OnOk};
ghost use Rattle.edition_checks.specs.Counts.{CountsOf};
ghost use Rattle.edition_checks.specs.Given.{given_of};
ghost use Rattle.edition_told.specs.Below.{linesBelow, rowOf};

use crate::telling::Telling;
use anyhow::Result;
use edition_checks::files::Given;
use edition_checks::status::Totals;
use edition_notes::notes::Notes;
use edition_options::options::Options;
use edition_report::lines::constraint_line;
use edition_report::pages::Outcome;
use rules::Refusal;
use std::alloc::{AllocError, Global};

/// What is told of an outcome beside its page: in one word, the refusal's number, line and column, and completed rounds.
#[derive(Clone, Copy)]
pub struct Facts {
    pub finding: &'static str,
    pub refusal: Option<usize>,
    pub line: Option<usize>,
    pub column: Option<usize>,
    pub rounds: Option<usize>,
}

impl Facts {
    // A word alone.
    fn told(finding: &'static str) -> Facts {
        Facts {
            finding,
            refusal: None,
            line: None,
            column: None,
            rounds: None,
        }
    }

    // A word and a refusal.
    fn refused(finding: &'static str, why: Refusal) -> Facts {
        Facts {
            refusal: Some(why.number() as usize),
            ..Facts::told(finding)
        }
    }

    pub(crate) fn of(outcome: Outcome, text: &[u8]) -> Facts {
        match outcome {
            Outcome::Unseen(_) => Facts::told("unseen"),
            Outcome::Unread(stop) => Facts {
                line: Some(stop.line),
                column: Some(stop.column),
                ..Facts::refused("unread", stop.why)
            },
            Outcome::Agrees { rounds, .. } => Facts {
                rounds: Some(rounds as usize),
                ..Facts::told("agrees")
            },
            Outcome::Denied(k) => Facts {
                line: Some(constraint_line(text, k)),
                ..Facts::told("denied")
            },
            Outcome::Unjudged(why) => Facts::refused("unjudged", why),
            Outcome::Remains { rounds, .. } => Facts {
                rounds: Some(rounds as usize),
                ..Facts::refused("remains", Refusal::Unsolved)
            },
            Outcome::Stops { why, rounds } => Facts {
                rounds: Some(rounds as usize),
                ..Facts::refused("stops", why)
            },
        }
    }
}

/// A line of a sheet: its number, and its bytes.
#[derive(Drop)]
pub struct Line {
    pub number: usize,
    pub text: Vec<u8>,
}

/// What is told of a sheet: its file's name, what became of it, its new names as they are spelled, its page as it would be printed, and the lines that
/// conflict, or the refusal that was met while they were looked for.
#[derive(Drop)]
pub struct SheetTold {
    pub name: Vec<u8>,
    pub accepted: bool,
    pub facts: Facts,
    pub constraints: usize,
    pub new: Vec<Vec<u8>>,
    pub page: Vec<u8>,
    pub why: Result<Vec<Line>, Refusal>,
}

/// What is told of all sheets that are shown, what they come to, and what is noted.
#[derive(Drop)]
pub struct Report {
    pub sheets: Vec<SheetTold>,
    pub totals: Totals,
    pub notes: Notes,
}

/// The lines of a page behind the first that begin with two blanks, without these.
pub fn lines_below(alloc: Global, page: &[u8]) -> Result<Vec<&[u8]>, AllocError>
    ensures { IfOk result (λ v. map (λ l. l.now) v.items ≡ linesBelow page.now) }
{
    let mut lines = Vec::new(alloc);
    for line in page.split(|b| *b == b'\n').skip(1) {
        push_below(&mut lines, line)?;
    }
    Ok(lines)
}

// Keeps a line that begins with two blanks, without these.
fn push_below<'p>(lines: &mut Vec<&'p [u8]>, line: &'p [u8]) -> Result<(), AllocError>
    ensures { OnOk result (map (λ l. l.now) lines.new.items ≡ map (λ l. l.now) lines.old.items ++ rowOf line.now) }
{
    if let Some(row) = line.strip_prefix(b"  ") {
        lines.push(row)?;
    }
    Ok(())
}

/// Tells of files: of each by itself, or of all together. What they come to are the counts of the edition that they are, or of one for each file.
pub fn tell(alloc: Global, given: &[Given], options: Options) -> Result<Report>
    ensures { IfOk result (λ r. CountsOf options.entry.separate (given_of given.now) r.totals.sheets r.totals.accepted) }
{
    let mut telling = Telling::new(alloc, options);
    let totals = if options.separate {
        telling.apart(alloc, given)?
    } else {
        telling.together(alloc, given)?
    };
    Ok(telling.report(totals))
}
