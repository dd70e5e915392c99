//! Is a constraint true? All bindings have been put in before; the bounds are a set of names.
ghost use Rattle.std.specs.Prelude.{◌≡◌, List};
ghost use Rattle.rules.specs.Meaning.{amongBounds};
ghost use Rattle.rules.specs.Names.{Bytes, numbered};
ghost use Rattle.rules.specs.Trees.{isDim, hasField};
ghost use Rattle.queries.specs.declared.name_set.NameSet.{NameSet};
ghost use Rattle.judge_meaning.specs.Truth.{Bounded, True};

use super::means;
use queries::Kind;
use queries::name_set::NameSet;
use types::{Constraint, Demand, Head, Shape, Type};

/// Are all open names of the type among the bounds?
fn among_bounds(t: Type, bounds: &NameSet) -> bool
    ensures { Bounded t.entry.tree.0 bounds.now (λ names xs. result ≡ amongBounds (numbered names) xs t.entry.tree.0) }
{
    let mut open = NameSet::new();
    open.extend(t.words, t.at, t.end(), Kind::Both);
    open.is_subset(bounds)
}

/// Is-dimension: a dimension, a variable or a parameter, whose open names are all among the bounds.
fn is_dimension(t: Type, bounds: &NameSet) -> bool
    ensures { True (isDim t.entry.tree.0) bounds.now result }
{
    match t.head() {
        Head::Open(_) => among_bounds(t, bounds),
        Head::Dimension(_) => among_bounds(t, bounds),
        _ => false,
    }
}

/// Has-field: a struct with that field, whose type means the asked one.
fn has_field(of: Type, name: u32, asked: Type) -> bool
    ensures { (bounds : NameSet) → True (hasField name of.entry.tree.0 asked.entry.tree.0) bounds result }
{
    let Shape::Struct(_, _, fields) = of.shape() else {
        return false;
    };
    match fields.find(name) {
        Some(t) => means(t, asked),
        None => false,
    }
}

/// Is the constraint true?
pub fn holds(c: Constraint, bounds: &NameSet) -> bool
    ensures { True c.entry.tree.0 bounds.now result }
{
    match c.demand() {
        Demand::Equal(left, right) => means(left, right),
        Demand::IsDimension(of) => is_dimension(of, bounds),
        Demand::IsScalar(product) => product.count == 0,
        Demand::HasField(name, of, asked) => has_field(of, name, asked),
    }
}
