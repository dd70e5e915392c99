//! Names, factors and dimensions as text.
ghost use Rattle.rules.specs.TextWriting.{nameText, openText, factorText, dimensionText};
ghost use Rattle.records.specs.Holds.{atomOf, openOf};
ghost use Rattle.types.specs.Shapes.{factor_of};
ghost use Rattle.text_spell.specs.Sinks.{Puts};
ghost use Rattle.text_write.specs.Parts.{atomText, fromFactors, name_of, star};

use names::tables::NameTable;
use records::{Atom, Open};
use text_spell::sink::Sink;
use text_spell::{put_name, put_power};
use types::{Factor, Product};

/// Puts the name with the number `x`; where none has it, nothing.
pub fn put_held<S: Sink>(names: NameTable, x: u32, to: &mut S) -> Result<(), S::Error>
    ensures { Puts (S.place to.old) (nameText (name_of names.entry.pool.now names.entry.table.now x)) result (S.place to.new) }
{
    put_name(to, names.name(x))
}

/// Puts a variable or a parameter, with its mark. A quantified variable, which stands in no set, has no text.
#[tactic(auto, unfolding(rules::specs::TextWriting::openText))]
pub fn put_open<S: Sink>(names: NameTable, o: Open, to: &mut S) -> Result<(), S::Error>
    ensures { Puts (S.place to.old) (openText (name_of names.entry.pool.now names.entry.table.now) (openOf o)) result (S.place to.new) }
{
    match o {
        Open::Var(x) => {
            to.put(b"?")?;
            put_held(names, x, to)
        }
        Open::Par(x) => {
            to.put(b"!")?;
            put_held(names, x, to)
        }
        Open::Quant(_) => Ok(()),
    }
}

/// Puts what a factor is a power of.
#[tactic(auto, unfolding(crate::specs::Parts::atomText))]
fn put_atom<S: Sink>(names: NameTable, atom: Atom, to: &mut S) -> Result<(), S::Error>
    ensures { Puts (S.place to.old) (atomText (name_of names.entry.pool.now names.entry.table.now) (atomOf atom)) result (S.place to.new) }
{
    match atom {
        Atom::Free(o) => put_open(names, o, to),
        Atom::Base(x) => {
            to.put(b"#")?;
            put_held(names, x, to)
        }
    }
}

/// Puts a factor.
fn put_factor<S: Sink>(names: NameTable, factor: Factor, to: &mut S) -> Result<(), S::Error>
    ensures { Puts (S.place to.old) (factorText (name_of names.entry.pool.now names.entry.table.now) (factor_of factor)) result (S.place to.new) }
{
    put_atom(names, factor.atom, to)?;
    put_power(to, factor.num, factor.den)
}

/// Puts what stands in front of a factor.
fn put_star<S: Sink>(first: bool, to: &mut S) -> Result<(), S::Error>
    ensures { Puts (S.place to.old) (star first) result (S.place to.new) }
{
    if first { Ok(()) } else { to.put(b" * ") }
}

/// Puts factors, behind others or not.
fn put_factors<S: Sink>(
    names: NameTable,
    factors: Product,
    first: bool,
    to: &mut S,
) -> Result<(), S::Error>
    ensures { Puts (S.place to.old) (fromFactors first (name_of names.entry.pool.now names.entry.table.now) factors.entry.factors.0) result (S.place to.new) }
{
    let Some((factor, rest)) = factors.split_first() else {
        return Ok(());
    };
    put_star(first, to)?;
    put_factor(names, factor, to)?;
    put_factors(names, rest, false, to)
}

/// Puts a dimension.
pub fn put_dimension<S: Sink>(
    names: NameTable,
    factors: Product,
    to: &mut S,
) -> Result<(), S::Error>
    ensures { Puts (S.place to.old) (dimensionText (name_of names.entry.pool.now names.entry.table.now) factors.entry.factors.0) result (S.place to.new) }
{
    to.put(b"[")?;
    put_factors(names, factors, true, to)?;
    to.put(b"]")
}
