//! Pages with rows that stand in a lent slice: each function asks for rows that are held there.
ghost use Rattle.std.specs.Prelude.{◌≡◌, List, ℕ, ◌≤◌, length};
ghost use Rattle.rules.specs.Base.{collect};
ghost use Rattle.rules.specs.Reports.{Finding, findingText, reportText};
ghost use Rattle.rules.specs.Trees.{Ty};
ghost use Rattle.records.specs.Holds.{Holds};
ghost use Rattle.text_write.specs.Parts.{name_of};
ghost use Rattle.text_spell.specs.Sinks.{Puts};
ghost use Rattle.edition_report.specs.Found.{IsFinding};
ghost use Rattle.edition_report.specs.Rows.{Row, RowHere, RowsAt, rowText};

use crate::pages::{
    Outcome, Page, put_accepted, put_denied, put_place, put_remaining, put_stopped, put_unjudged,
    put_unread,
};
use crate::rows::{put_binding, put_bound, put_left};
use crate::shown::put_shown;
use crate::words::put_unseen;
use names::tables::NameTable;
use records::View;
use records::seen::{length_at, view_at};
use text_spell::sink::Sink;
use text_write::inner::constraint_at;
use types::Type;

// The type whose first record is the one at `at`.
fn type_at(words: &[u32], at: usize) -> Type
    requires near { length words.now ≤ 4_000_000_000 }
    requires there { (t : Ty ℕ) × Holds words.now t at }
    ensures { (t : Ty ℕ) → Holds words.now t at → result.tree.0 ≡ t }
{
    Type { words, at }
}

// Puts the line of the binding, the bound or the constraint at a place.
fn put_row<S: Sink>(names: NameTable, s: &[u32], at: usize, to: &mut S) -> Result<(), S::Error>
    requires near { length s.now ≤ 4_000_000_000 }
    requires there { (r : Row) × ((e : ℕ) × RowHere s.now at r e) }
    ensures { (r : Row) (e : ℕ) → RowHere s.now at r e
        → Puts (S.place to.old) (rowText (name_of names.entry.pool.now names.entry.table.now) r) result (S.place to.new) }
{
    match view_at(s, at) {
        View::Binding(x) => put_binding(names, x, type_at(s, at + 1), to),
        View::Bound(o) => put_bound(names, o, to),
        _ => put_left(names, constraint_at(s, at), to),
    }
}

// Puts the lines of the rows at the front of a list, up to a place.
fn put_rows<S: Sink>(names: NameTable, s: &[u32], end: usize, to: &mut S) -> Result<(), S::Error>
    requires near { length s.now ≤ 4_000_000_000 }
    requires there { (rs : List Row) × RowsAt s.now 0 end rs }
    ensures { (rs : List Row) → RowsAt s.now 0 end rs
        → Puts (S.place to.old) (collect (rowText (name_of names.entry.pool.now names.entry.table.now)) rs) result (S.place to.new) }
{
    let mut at = 0;
    while at < end {
        put_row(names, s, at, to)?;
        at += length_at(s, at);
    }
    Ok(())
}

// Puts what became of a sheet, with the rows that stand at the front of a list.
fn put_outcome<S: Sink>(
    names: NameTable,
    page: Page,
    outcome: Outcome,
    records: &[u32],
    to: &mut S,
) -> Result<(), S::Error>
    requires near { length records.now ≤ 4_000_000_000 }
    requires there { (f : Finding) × IsFinding records.now outcome f }
    ensures { (f : Finding) → IsFinding records.now outcome f
        → Puts (S.place to.old)
        (findingText (name_of names.entry.pool.now names.entry.table.now) page.entry.text.now page.entry.constraints page.entry.new f)
        result (S.place to.new) }
{
    match outcome {
        Outcome::Unseen(why) => put_unseen(to, why),
        Outcome::Unread(stop) => put_unread(page.text, stop, to),
        Outcome::Agrees {
            bindings,
            bounds,
            rounds,
        } => {
            put_accepted(page, rounds, to)?;
            put_rows(names, records, bindings + bounds, to)
        }
        Outcome::Denied(k) => put_denied(page.text, k, to),
        Outcome::Unjudged(why) => put_unjudged(why, to),
        Outcome::Remains { end, rounds } => {
            put_remaining(rounds, to)?;
            put_rows(names, records, end, to)
        }
        Outcome::Stops { why, rounds } => put_stopped(why, rounds, to),
    }
}

/// Puts the page of a sheet. It asks for rows of what was found at the front of the records.
pub fn put_page<S: Sink>(
    names: NameTable,
    page: Page,
    outcome: Outcome,
    records: &[u32],
    to: &mut S,
) -> Result<(), S::Error>
    requires near { length records.now ≤ 4_000_000_000 }
    requires there { (f : Finding) × IsFinding records.now outcome f }
    ensures { (f : Finding) → IsFinding records.now outcome f
        → Puts (S.place to.old)
        (reportText (name_of names.entry.pool.now names.entry.table.now) page.entry.name.now page.entry.text.now page.entry.constraints page.entry.new f)
        result (S.place to.new) }
{
    put_shown(to, page.name)?;
    put_place(page.text, outcome, to)?;
    to.put(b": ")?;
    put_outcome(names, page, outcome, records, to)
}
