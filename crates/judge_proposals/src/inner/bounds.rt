// Bounds with names: do they rise, and which names are they?
ghost use Rattle.std.specs.Prelude.{◌≡◌, List, ◌++◌, map, ℕ};
ghost use Rattle.rules.specs.Trees as trees;
ghost use Rattle.rules.specs.WellFormed.{rising};
ghost use Rattle.rules.specs.Writing.{word_of};
ghost use Rattle.records.specs.Good.{numbers};
ghost use Rattle.records.specs.Holds.{openOf, HoldsBound};
ghost use Rattle.queries.specs.Marks.{Has};
ghost use Rattle.judge_proposals.specs.Bounds.{BoundsThere};

use names::tables::NameTable;
use queries::name_set::NameSet;
use records::inner::is_less;
use records::seen::view_at;
use records::{Open, View};

fn number(o: Open) -> u32
    ensures { result ≡ word_of (openOf o) }
{
    match o {
        Open::Var(n) | Open::Quant(n) | Open::Par(n) => n,
    }
}

// The number that the bound at a place names.
fn name_of(s: &[u32], at: usize) -> u32
    ensures { (o : trees.Open ℕ) → HoldsBound s.now o at → result ≡ word_of o }
{
    match view_at(s, at) {
        View::Bound(o) => number(o),
        _ => 0,
    }
}

// Do the names of the bounds rise strictly, by their bytes?
pub fn rise(names: NameTable, s: &[u32]) -> bool
    requires { (os : List (trees.Open ℕ)) × BoundsThere names.pool.now names.table.now s.now os }
    ensures { (os : List (trees.Open ℕ)) → BoundsThere names.entry.pool.now names.entry.table.now s.now os →
        result ≡ rising (numbers names.entry.pool.now names.entry.table.now).order (map word_of os) }
{
    for i in 1..s.len() / 4 {
        if !is_less(names.order(name_of(s, i - 1), name_of(s, i))) {
            return false;
        }
    }
    true
}

/// The names of the bounds.
pub fn bound_names(s: &[u32]) -> NameSet
    ensures { (pool table : List ℕ) (os : List (trees.Open ℕ)) → BoundsThere pool table s.now os → Has result (map word_of os) }
{
    let mut found = NameSet::new();
    for i in 0..s.len() / 4 {
        found.insert(name_of(s, i));
    }
    found
}
