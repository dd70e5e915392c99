//! What became of a sheet, and the parts of its page for each of these.
ghost use Rattle.std.specs.Prelude.{◌≡◌, List, ℕ, ◌++◌};
ghost use Rattle.rules.specs.Base.{Got};
ghost use Rattle.rules.specs.Grammar.{ascii};
ghost use Rattle.rules.specs.Names.{Bytes};
ghost use Rattle.rules.specs.Refusals.{number_of, toldBy, toldOption};
ghost use Rattle.rules.specs.Reports.{Finding, unread, denied, unjudged, stops, finding, isAccepted, amount, placeText, findingText};
ghost use Rattle.rules.specs.Solving.{Answer};
ghost use Rattle.rules.specs.Trees.{Names, Con};
ghost use Rattle.judge.specs.Found.{PlacedAs};
ghost use Rattle.solve.specs.Told.{Stands};
ghost use Rattle.text_spell.specs.Sinks.{Puts};
ghost use Rattle.edition_report.specs.Found.{IsFinding, acceptedText, leftText};

use crate::lines::{constraint_line, line_in};
use crate::shown::{put_part, show_line};
use crate::words::{put_amount, put_quantity, put_refused};
use rules::{Refusal, Unseen};
use solve::{Finish, Solution};
use text_sheet::NotRead;
use text_spell::sink::Sink;

/// What became of a sheet. Rows of bindings and bounds, or of what remains, stand at the front of a list: so many records of each.
#[derive(Clone, Copy)]
pub enum Outcome {
    /// Its file can't be had.
    Unseen(Unseen),
    /// Its text is refused.
    Unread(NotRead),
    /// Solved, and the judge says yes.
    Agrees {
        bindings: usize,
        bounds: usize,
        rounds: u32,
    },
    /// Solved, and the judge says no: the first constraint that fails, counted from 0.
    Denied(usize),
    /// Solved, and the judge refuses.
    Unjudged(Refusal),
    /// Constraints remain, so many records of them.
    Remains {
        end: usize,
        rounds: u32,
    },
    /// Another refusal of the solver.
    Stops {
        why: Refusal,
        rounds: u32,
    },
}

impl Outcome {
    /// What is found of a set, by what solving answered and what the judge says of it.
    pub fn of(solution: Solution, verdict: Result<Option<usize>, Refusal>) -> Outcome
        ensures found { (s : List ℕ) (a : Got (Answer ℕ)) → Stands s solution a → (ν : Names ℕ) (cs : List (Con ℕ))
            → PlacedAs ν cs a (toldBy toldOption verdict) → IsFinding s result (finding ν cs a) }
        ensures there { (s : List ℕ) (a : Got (Answer ℕ)) → Stands s solution a → (f : Finding) × IsFinding s result f }
    {
        let rounds = solution.rounds;
        match solution.outcome {
            Ok(Finish::Solved(bindings, bounds)) => match verdict {
                Ok(None) => Outcome::Agrees {
                    bindings,
                    bounds,
                    rounds,
                },
                Ok(Some(k)) => Outcome::Denied(k),
                Err(why) => Outcome::Unjudged(why),
            },
            Ok(Finish::Unsolved(end)) => Outcome::Remains { end, rounds },
            Err(why) => Outcome::Stops { why, rounds },
        }
    }

    /// The one thing that counts: solved, and the judge says yes.
    pub fn is_accepted(self) -> bool
        ensures { (s : List ℕ) (f : Finding) → IsFinding s self f → result ≡ isAccepted f }
    {
        matches!(self, Outcome::Agrees { .. })
    }
}

/// A sheet: its name as it was given, its text, and how many constraints and new names it has.
#[derive(Clone, Copy)]
pub struct Page<'a> {
    pub name: &'a [u8],
    pub text: &'a [u8],
    pub constraints: usize,
    pub new: usize,
}

/// Puts where in a text it is.
#[tactic(auto, unfolding(rules::specs::Reports::placeText))]
pub fn put_place<S: Sink>(text: &[u8], outcome: Outcome, to: &mut S) -> Result<(), S::Error>
    ensures { (s : List ℕ) (f : Finding) → IsFinding s outcome f → Puts (S.place to.old) (placeText text.now f) result (S.place to.new) }
{
    match outcome {
        Outcome::Unread(stop) => put_point(to, stop.line, stop.column),
        Outcome::Denied(k) => {
            to.put(b":")?;
            put_amount(to, constraint_line(text, k))
        }
        Outcome::Unseen(_) => Ok(()),
        Outcome::Agrees { .. } => Ok(()),
        Outcome::Unjudged(_) => Ok(()),
        Outcome::Remains { .. } => Ok(()),
        Outcome::Stops { .. } => Ok(()),
    }
}

// Puts a line's number and a column.
fn put_point<S: Sink>(to: &mut S, line: usize, column: usize) -> Result<(), S::Error>
    ensures { Puts (S.place to.old) (ascii ":" ++ (amount line ++ (ascii ":" ++ amount column))) result (S.place to.new) }
{
    to.put(b":")?;
    put_amount(to, line)?;
    to.put(b":")?;
    put_amount(to, column)
}

/// Puts why a text is refused, and the line.
pub fn put_unread<S: Sink>(text: &[u8], stop: NotRead, to: &mut S) -> Result<(), S::Error>
    ensures { (names : ℕ → Bytes) (cs new : ℕ)
        → Puts (S.place to.old) (findingText names text.now cs new (unread (number_of stop.why) stop.line stop.column)) result (S.place to.new) }
{
    put_refused(to, stop.why)?;
    to.put(b"\n")?;
    show_line(to, stop.column, line_in(text, stop.line))
}

/// Puts that the judge says no, and the line of the first constraint that fails.
pub fn put_denied<S: Sink>(text: &[u8], k: usize, to: &mut S) -> Result<(), S::Error>
    ensures { (names : ℕ → Bytes) (cs new : ℕ) → Puts (S.place to.old) (findingText names text.now cs new (denied k)) result (S.place to.new) }
{
    to.put(
        b"not accepted: it was solved, but the judge says no: a type that is no dimension stands in a product\n",
    )?;
    put_part(to, 0, line_in(text, constraint_line(text, k)))
}

/// Puts the first line of a sheet that is accepted.
pub fn put_accepted<S: Sink>(page: Page, rounds: u32, to: &mut S) -> Result<(), S::Error>
    ensures { Puts (S.place to.old) (acceptedText page.entry.constraints rounds page.entry.new) result (S.place to.new) }
{
    to.put(b"accepted: ")?;
    put_quantity(to, page.constraints, b" constraint")?;
    to.put(b", ")?;
    put_quantity(to, rounds as usize, b" round")?;
    to.put(b", ")?;
    put_quantity(to, page.new, b" new name")?;
    to.put(b"\n")
}

/// Puts that constraints remain.
pub fn put_remaining<S: Sink>(rounds: u32, to: &mut S) -> Result<(), S::Error>
    ensures { Puts (S.place to.old) (leftText rounds) result (S.place to.new) }
{
    put_refused(to, Refusal::Unsolved)?;
    to.put(b" after ")?;
    put_quantity(to, rounds as usize, b" round")?;
    to.put(b"\n")
}

/// Puts another refusal of the solver.
pub fn put_stopped<S: Sink>(why: Refusal, rounds: u32, to: &mut S) -> Result<(), S::Error>
    ensures { (names : ℕ → Bytes) (text : Bytes) (cs new : ℕ)
        → Puts (S.place to.old) (findingText names text cs new (stops (number_of why) rounds)) result (S.place to.new) }
{
    put_refused(to, why)?;
    to.put(b", after ")?;
    put_quantity(to, rounds as usize, b" round")?;
    to.put(b"\n")
}

/// Puts the judge's refusal.
pub fn put_unjudged<S: Sink>(why: Refusal, to: &mut S) -> Result<(), S::Error>
    ensures { (names : ℕ → Bytes) (text : Bytes) (cs new : ℕ)
        → Puts (S.place to.old) (findingText names text cs new (unjudged (number_of why))) result (S.place to.new) }
{
    put_refused(to, why)?;
    to.put(b", by the judge\n")
}
