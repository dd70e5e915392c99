//! Why a sheet isn't accepted: the lines that conflict, told under its page.
ghost use Rattle.std.specs.Prelude.{◌≡◌, ◌++◌, List, ℕ};
ghost use Rattle.rules.specs.Base.{collect};
ghost use Rattle.rules.specs.Conflicts.{conflictOf};
ghost use Rattle.rules.specs.Names.{table_of};
ghost use Rattle.rules.specs.Refusals.{number_of};
ghost use Rattle.rules.specs.Reports.{Page as PageRead, findingOf};
ghost use Rattle.solve_conflict.specs.Told.{FoundAs};
ghost use Rattle.edition_report.specs.Found.{IsFinding};
ghost use Rattle.text_spell.specs.Sinks.{Puts};
ghost use Rattle.edition.specs.Asked.{askedBy};
ghost use Rattle.edition.specs.Files.{IsSheet};
ghost use Rattle.edition.specs.Why.{conflictHead, lineTold, numbered, unknownText, whyLine, whyText};

use crate::model::{Room, Sheet};
use edition_report::lines::{constraint_line, line_in};
use edition_report::pages::Outcome;
use edition_report::shown::{put_part, put_shown};
use edition_report::words::{put_amount, put_refused};
use names::tables::NameTable;
use rules::Refusal;
use solve_conflict::inner::find_among;
use text_spell::sink::Sink;

/// Which constraints of a sheet conflict, where constraints remain of it: their places in its set, counted from 0, stand at the front of the room's result.
/// How many there are; nothing where its dimension lines can all be true. A refusal, 7 or 8, is met where lines are solved.
pub fn conflict_in(
    names: NameTable,
    sheet: &Sheet,
    outcome: Outcome,
    room: &mut Room,
) -> Result<Option<usize>, Refusal>
    ensures { FoundAs (askedBy outcome (conflictOf (table_of names.entry.pool.now names.entry.table.now) sheet.now.records.items)) room.old.res
        room.new.res result }
{
    match outcome {
        Outcome::Remains { .. } => {
            find_among(Ok(names), &sheet.records, &mut room.res, &mut room.work)
        }
        Outcome::Unseen(_)
        | Outcome::Unread(_)
        | Outcome::Agrees { .. }
        | Outcome::Denied(_)
        | Outcome::Unjudged(_)
        | Outcome::Stops { .. } => Ok(None),
    }
}

// Puts a line's number as a place.
fn put_number<S: Sink>(to: &mut S, n: usize) -> Result<(), S::Error>
    ensures { Puts (S.place to.old) (numbered n) result (S.place to.new) }
{
    to.put(b":")?;
    put_amount(to, n)?;
    to.put(b":")
}

// Puts the line of a text with this number, behind its place.
fn put_line<S: Sink>(name: &[u8], text: &[u8], n: usize, to: &mut S) -> Result<(), S::Error>
    ensures { Puts (S.place to.old) (lineTold name.now text.now n) result (S.place to.new) }
{
    to.put(b"  ")?;
    put_shown(to, name)?;
    put_number(to, n)?;
    put_part(to, 0, line_in(text, n))
}

// Puts the lines of the constraints at these places.
fn put_lines<S: Sink>(name: &[u8], text: &[u8], places: &[u32], to: &mut S) -> Result<(), S::Error>
    ensures { Puts (S.place to.old) (collect (whyLine name.now text.now) places.now) result (S.place to.new) }
{
    for place in places {
        put_line(name, text, constraint_line(text, *place as usize), to)?;
    }
    Ok(())
}

// Puts the lines that conflict.
#[tactic(auto, unfolding(crate::specs::Why::conflictHead))]
fn put_conflict<S: Sink>(
    name: &[u8],
    text: &[u8],
    places: &[u32],
    to: &mut S,
) -> Result<(), S::Error>
    ensures { Puts (S.place to.old) (conflictHead ++ collect (whyLine name.now text.now) places.now) result (S.place to.new) }
{
    to.put(b"  these lines conflict, and without any one of them the others don't:\n")?;
    put_lines(name, text, places, to)
}

// Puts a refusal that was met on the way.
#[tactic(auto, unfolding(crate::specs::Why::unknownText))]
fn put_unknown<S: Sink>(why: Refusal, to: &mut S) -> Result<(), S::Error>
    ensures { Puts (S.place to.old) (unknownText (number_of why)) result (S.place to.new) }
{
    to.put(b"  looking for lines that conflict: ")?;
    put_refused(to, why)?;
    to.put(b"\n")
}

/// Puts why a sheet isn't accepted: where constraints remain, the lines that conflict, each behind its place, or a refusal that was met on the way.
/// Nothing is put where no conflict is found, and of a sheet of which nothing remains.
pub fn tell_why<S: Sink>(
    names: NameTable,
    sheet: &Sheet,
    outcome: Outcome,
    room: &mut Room,
    to: &mut S,
) -> Result<(), S::Error>
    ensures { (p : PageRead) → IsSheet sheet.now p → (s : List ℕ)
        → IsFinding s outcome (findingOf (table_of names.entry.pool.now names.entry.table.now) p.content)
        → Puts (S.place to.old) (whyText (table_of names.entry.pool.now names.entry.table.now) p) result (S.place to.new) }
{
    match conflict_in(names, sheet, outcome, room) {
        Ok(Some(many)) => {
            let found: &[u32] = &room.res;
            put_conflict(sheet.name, sheet.text, &found[..many], to)
        }
        Ok(None) => Ok(()),
        Err(why) => put_unknown(why, to),
    }
}
