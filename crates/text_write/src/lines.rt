//! Constraints as text.
ghost use Rattle.rules.specs.TextWriting.{conText};
ghost use Rattle.text_spell.specs.Sinks.{Puts};
ghost use Rattle.text_write.specs.Parts.{name_of, named};

use super::factors::{put_dimension, put_held};
use super::terms::write_type;
use names::tables::NameTable;
use text_spell::sink::Sink;
use types::{Constraint, Demand};

/// Puts a field's name between the two types of its constraint.
fn put_named<S: Sink>(names: NameTable, x: u32, to: &mut S) -> Result<(), S::Error>
    ensures { Puts (S.place to.old) (named (name_of names.entry.pool.now names.entry.table.now x)) result (S.place to.new) }
{
    to.put(b", \"")?;
    put_held(names, x, to)?;
    to.put(b"\", ")
}

/// Puts a constraint, without a line feed.
pub fn write_con<S: Sink>(
    names: NameTable,
    constraint: Constraint,
    to: &mut S,
) -> Result<(), S::Error>
    ensures { Puts (S.place to.old) (conText (name_of names.entry.pool.now names.entry.table.now) constraint.entry.tree.0) result (S.place to.new) }
{
    match constraint.demand() {
        Demand::Equal(left, right) => {
            write_type(names, left, to)?;
            to.put(b" ~ ")?;
            write_type(names, right, to)
        }
        Demand::IsDimension(t) => {
            write_type(names, t, to)?;
            to.put(b": DType")
        }
        Demand::IsScalar(factors) => {
            put_dimension(names, factors, to)?;
            to.put(b" = Scalar")
        }
        Demand::HasField(x, of, t) => {
            to.put(b"HasField(")?;
            write_type(names, of, to)?;
            put_named(names, x, to)?;
            write_type(names, t, to)?;
            to.put(b")")
        }
    }
}
