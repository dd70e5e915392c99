//! The line of a row: of a binding, of a bound, of a constraint that remains.
ghost use Rattle.std.specs.Prelude.{◌++◌};
ghost use Rattle.rules.specs.Grammar.{ascii};
ghost use Rattle.rules.specs.Reports.{bindingLine, remainingLine};
ghost use Rattle.rules.specs.Trees.{◌≔◌};
ghost use Rattle.text_spell.specs.Sinks.{Puts};
ghost use Rattle.text_write.specs.Parts.{name_of};
ghost use Rattle.edition_report.specs.Rows.{bareText};

use names::tables::NameTable;
use records::Open;
use text_spell::sink::Sink;
use text_write::factors::{put_held, put_open};
use text_write::lines::write_con;
use text_write::terms::write_type;
use types::{Constraint, Type};

/// Puts the line of a binding.
pub fn put_binding<S: Sink>(names: NameTable, x: u32, t: Type, to: &mut S) -> Result<(), S::Error>
    ensures { Puts (S.place to.old) (bindingLine (name_of names.entry.pool.now names.entry.table.now) (x ≔ t.entry.tree.0)) result (S.place to.new) }
{
    to.put(b"  ")?;
    put_open(names, Open::Var(x), to)?;
    to.put(b" ~ ")?;
    write_type(names, t, to)?;
    to.put(b"\n")
}

// Puts an open name without its mark.
fn put_bare<S: Sink>(names: NameTable, o: Open, to: &mut S) -> Result<(), S::Error>
    ensures { Puts (S.place to.old) (bareText (name_of names.entry.pool.now names.entry.table.now) o) result (S.place to.new) }
{
    match o {
        Open::Var(x) => put_held(names, x, to),
        Open::Par(x) => put_held(names, x, to),
        Open::Quant(_) => Ok(()),
    }
}

/// Puts the line of a bound.
pub fn put_bound<S: Sink>(names: NameTable, o: Open, to: &mut S) -> Result<(), S::Error>
    ensures { Puts (S.place to.old) (ascii "  " ++ (bareText (name_of names.entry.pool.now names.entry.table.now) o ++ ascii ": DType\n"))
        result (S.place to.new) }
{
    to.put(b"  ")?;
    put_bare(names, o, to)?;
    to.put(b": DType\n")
}

/// Puts the line of a constraint that remains.
pub fn put_left<S: Sink>(
    names: NameTable,
    constraint: Constraint,
    to: &mut S,
) -> Result<(), S::Error>
    ensures { Puts (S.place to.old) (remainingLine (name_of names.entry.pool.now names.entry.table.now) constraint.entry.tree.0) result (S.place to.new) }
{
    to.put(b"  ")?;
    write_con(names, constraint, to)?;
    to.put(b"\n")
}
