//! Sheets solved, judged and told, each by itself over the table with all names.
ghost use Rattle.std.specs.Prelude.{◌≡◌, IfOk, List, ℕ};
ghost use Rattle.rules.specs.Base.{collect};
ghost use Rattle.rules.specs.Names.{Bytes, table_of};
ghost use Rattle.rules.specs.Reports.{Finding, Page as PageRead, acceptedIn, findingOf, isAccepted, pageShown, shownWhere};
ghost use Rattle.edition_report.specs.Found.{IsFinding};
ghost use Rattle.text_spell.specs.Sinks.{Puts};
ghost use Rattle.edition.specs.Files.{HoldsAll, IsSheet};
ghost use Rattle.edition.specs.Pages.{Tells, done, shownIf};
ghost use Rattle.edition.specs.Why.{pageTold};

use crate::model::{Content, How, Room, Sheet};
use crate::why::tell_why;
use edition_report::inner::put_page;
use edition_report::pages::{Outcome, Page};
use names::tables::NameTable;
use rules::Shown;
use solve_confirm::inner::solve_and_judge;
use text_spell::sink::Sink;

// What becomes of a sheet: its set is solved and judged. What is found stands in the room's result.
fn judge_sheet(names: NameTable, sheet: &Sheet, room: &mut Room) -> Outcome
    ensures found { (p : PageRead) → IsSheet sheet.now p
        → IsFinding room.new.res result (findingOf (table_of names.entry.pool.now names.entry.table.now) p.content) }
    ensures there { (f : Finding) × IsFinding room.new.res result f }
{
    match sheet.content {
        Content::Set(_) => {
            let confirmed = solve_and_judge(
                Ok(names),
                &sheet.records,
                &mut room.res,
                &mut room.work,
            );
            Outcome::of(confirmed.solution, confirmed.verdict)
        }
        Content::Refused(stop) => Outcome::Unread(stop),
        Content::Unseen(why) => Outcome::Unseen(why),
    }
}

// What a page tells of a sheet beside what became of it.
fn page_of<'a>(sheet: &'a Sheet) -> Page<'a>
    ensures { (p : PageRead) → IsSheet sheet.now p → Tells result.name.now result.text.now result.constraints result.new p }
{
    Page {
        name: sheet.name,
        text: sheet.text,
        constraints: sheet.content.constraints(),
        new: sheet.content.names(),
    }
}

// Is a page shown?
fn is_shown(shown: Shown, accepted: bool) -> bool
    ensures { (text : Bytes) → shownWhere shown accepted text ≡ shownIf result text }
{
    match shown {
        Shown::All => true,
        Shown::Quiet => !accepted,
    }
}

/// Solves and judges a sheet over the table with all names, puts its page (quietly, only if it isn't accepted), and says what became of it.
pub fn tell_sheet<S: Sink>(
    names: NameTable,
    shown: Shown,
    sheet: &Sheet,
    room: &mut Room,
    to: &mut S,
) -> Result<Outcome, S::Error>
    ensures told { (p : PageRead) → IsSheet sheet.now p
        → Puts (S.place to.old) (pageShown shown (table_of names.entry.pool.now names.entry.table.now) p) (done result) (S.place to.new) }
    ensures found { (p : PageRead) → IsSheet sheet.now p
        → IfOk result (λ o. IsFinding room.new.res o (findingOf (table_of names.entry.pool.now names.entry.table.now) p.content)) }
{
    let outcome = judge_sheet(names, sheet, room);
    if !is_shown(shown, outcome.is_accepted()) {
        return Ok(outcome);
    }
    put_page(names, page_of(sheet), outcome, &room.res, to)?;
    Ok(outcome)
}

// Tells a sheet, and why it isn't accepted, if that is asked for. Is it accepted?
fn tell_asked<S: Sink>(
    names: NameTable,
    how: How,
    sheet: &Sheet,
    room: &mut Room,
    to: &mut S,
) -> Result<bool, S::Error>
    ensures told { (p : PageRead) → IsSheet sheet.now p
        → Puts (S.place to.old) (pageTold how.why how.shown (table_of names.entry.pool.now names.entry.table.now) p) (done result) (S.place to.new) }
    ensures found { (p : PageRead) → IsSheet sheet.now p
        → IfOk result (λ b. b ≡ isAccepted (findingOf (table_of names.entry.pool.now names.entry.table.now) p.content)) }
{
    let outcome = tell_sheet(names, how.shown, sheet, room, to)?;
    let accepted = outcome.is_accepted();
    if !how.why {
        return Ok(accepted);
    }
    tell_why(names, sheet, outcome, room, to)?;
    Ok(accepted)
}

/// Solves, judges and tells sheets one after another, as it is asked for, and says how many are accepted.
pub fn tell_each<S: Sink>(
    names: NameTable,
    how: How,
    sheets: &[Sheet],
    room: &mut Room,
    to: &mut S,
) -> Result<usize, S::Error>
    ensures told { (ps : List PageRead) → HoldsAll sheets.now ps
        → Puts (S.place to.old) (collect (pageTold how.why how.shown (table_of names.entry.pool.now names.entry.table.now)) ps) (done result) (S.place to.new) }
    ensures counted { (ps : List PageRead) → HoldsAll sheets.now ps
        → IfOk result (λ n. n ≡ acceptedIn (table_of names.entry.pool.now names.entry.table.now) ps) }
{
    let mut accepted = 0;
    for sheet in sheets {
        let yes = tell_asked(names, how, sheet, room, to)?;
        accepted += usize::from(yes);
    }
    Ok(accepted)
}

/// Solves, judges and tells sheets one after another, and says how many are accepted.
pub fn tell_all<S: Sink>(
    names: NameTable,
    shown: Shown,
    sheets: &[Sheet],
    room: &mut Room,
    to: &mut S,
) -> Result<usize, S::Error>
    ensures told { (ps : List PageRead) → HoldsAll sheets.now ps
        → Puts (S.place to.old) (collect (pageShown shown (table_of names.entry.pool.now names.entry.table.now)) ps) (done result) (S.place to.new) }
    ensures counted { (ps : List PageRead) → HoldsAll sheets.now ps
        → IfOk result (λ n. n ≡ acceptedIn (table_of names.entry.pool.now names.entry.table.now) ps) }
{
    let how = How { shown, why: false };
    tell_each(names, how, sheets, room, to)
}
