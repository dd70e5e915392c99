//! Bindings that stand one after another, noted by variable: one word for each name, which is 0 or one more than the place of its type.
ghost use Rattle.std.specs.Prelude.{◌≡◌, List, ℕ, ◌+◌, ◌≤◌, length, replicate};
ghost use Rattle.rules.specs.Trees.{Binding};
ghost use Rattle.records.specs.Views.{viewAt};
ghost use Rattle.records.specs.declared.View;
ghost use Rattle.types.specs.Binds.{IsBinds};
ghost use Rattle.replace_table.specs.Filling.{noted, Fills};

use names::inner::word_at;
use queries::inner::end_of;
use records::View;
use records::inner::put;
use records::seen::view_at;

// Notes the binding at a place, unless its variable was bound before.
fn note(v: &[u32], at: usize, places: &mut [u32])
    requires { at ≤ 1000000000 }
    ensures { (y : ℕ) → viewAt v.now at ≡ View.Binding y → places.new ≡ noted places.old y (at + 2) }
{
    let View::Binding(y) = view_at(v, at) else {
        return;
    };
    let i = y as usize;
    if word_at(places, i) == 0 {
        put(places, i, (at + 2) as u32);
    }
}

/// Notes the bindings from a place up to an end in a table of 256 words that is empty: for each variable the place of the type that its first binding
/// binds it to.
pub fn fill(v: &[u32], b: usize, e: usize, places: &mut [u32])
    requires run { (bs : List (Binding ℕ)) × IsBinds v.now b e bs }
    requires near { length v.now ≤ 4000000000 }
    requires empty { places.old ≡ replicate 256 0 }
    ensures { Fills v.now b e places.new }
{
    let mut i = b;
    while i < e {
        note(v, i, places);
        i = end_of(v, i + 1);
    }
}
