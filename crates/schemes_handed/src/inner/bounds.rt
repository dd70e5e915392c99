//! Bounds written with their names renamed.
ghost use Rattle.std.specs.Prelude.{map};
ghost use Rattle.rules.specs.Writing.{writeBound};
ghost use Rattle.records.specs.Holds.{openOf};
ghost use Rattle.types.specs.Written.{Writes};
ghost use Rattle.schemes_handed.specs.Bounds.{Rename, Renames, bounds_of, allBounds};

use super::super::Bounds;
use records::seen::view_at;
use records::{Open, View};
use replace::substitution::Substitution;
use types::Shape;
use types::writer::Writer;

/// Writes a bound with its name renamed; a name that isn't renamed stays or, unless all are asked for, is left out.
fn put_bound(by: Substitution, o: Open, all: bool, out: &mut Writer)
    requires { (f : Rename) × Renames by.lent.0 f }
    ensures { (f : Rename) → Renames by.entry.lent.0 f → Writes out.old out.new (map writeBound (bounds_of all f (openOf o))) }
{
    match by.look_up(o) {
        Some(t) => match t.shape() {
            Shape::Open(u) => out.put(View::Bound(u), 1),
            _ => unreachable!(),
        },
        None => {
            if all {
                out.put(View::Bound(o), 1);
            }
        }
    }
}

/// Writes bounds with their names renamed; a name that isn't renamed stays or, unless all are asked for, is left out.
pub fn put_bounds(by: Substitution, bounds: Bounds, all: bool, out: &mut Writer)
    requires { (f : Rename) × Renames by.lent.0 f }
    ensures { (f : Rename) → Renames by.entry.lent.0 f → Writes out.old out.new (map writeBound (allBounds all f bounds.entry.listed.0)) }
{
    let words = bounds.words;
    for i in bounds.at..words.len() / 4 {
        if let View::Bound(o) = view_at(words, i) {
            put_bound(by, o, all, out);
        }
    }
}
