//! Constraints that stand in a lent set, each put with its line feed.
ghost use Rattle.std.specs.Prelude.{◌≡◌, List, ℕ, ◌≤◌, length};
ghost use Rattle.rules.specs.TextWriting.{setText};
ghost use Rattle.rules.specs.Trees.{Con};
ghost use Rattle.records.specs.Holds.{HoldsCon};
ghost use Rattle.text_spell.specs.Sinks.{Puts};
ghost use Rattle.text_write.specs.Parts.{name_of};
ghost use Rattle.text_write.specs.Rows.{LinesAt};

use super::lines::write_con;
use names::tables::NameTable;
use records::seen::length_at;
use text_spell::sink::Sink;
use types::Constraint;

/// The constraint whose first record is the one at `at`.
pub fn constraint_at(words: &[u32], at: usize) -> Constraint
    requires near { length words.now ≤ 4_000_000_000 }
    requires there { (c : Con ℕ) × HoldsCon words.now c at }
    ensures { (c : Con ℕ) → HoldsCon words.now c at → result.tree.0 ≡ c }
{
    Constraint { words, at }
}

/// Puts the constraints from a place on, each with a line feed.
pub fn write_lines<S: Sink>(
    names: NameTable,
    set: &[u32],
    at: usize,
    to: &mut S,
) -> Result<(), S::Error>
    requires near { length set.now ≤ 4_000_000_000 }
    requires there { (cs : List (Con ℕ)) × LinesAt names.pool.now names.table.now set.now at cs }
    ensures { (cs : List (Con ℕ)) → LinesAt names.entry.pool.now names.entry.table.now set.now at cs
        → Puts (S.place to.old) (setText (name_of names.entry.pool.now names.entry.table.now) cs) result (S.place to.new) }
{
    if set.len() / 4 <= at {
        return Ok(());
    }
    write_con(names, constraint_at(set, at), to)?;
    to.put(b"\n")?;
    write_lines(names, set, at + length_at(set, at), to)
}
