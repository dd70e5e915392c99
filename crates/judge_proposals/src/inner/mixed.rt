//! Is no name both a variable and a parameter, in a set, in the types of a table of places, and among the variables bound there?
ghost use Rattle.std.specs.Prelude.{◌≡◌, List, ◌++◌, ℕ, ◌/◌, length, option_to_list};
ghost use Rattle.std.proofs.Math.Option.{Option};
ghost use Rattle.rules.specs.Base.{collect};
ghost use Rattle.rules.specs.Calls.{opensBinding};
ghost use Rattle.rules.specs.Contents.{unmixed};
ghost use Rattle.rules.specs.Names.{Bytes, numbered};
ghost use Rattle.rules.specs.Trees.{Ty, Binding};
ghost use Rattle.replace.specs.Places.{SaysAt};
ghost use Rattle.queries.specs.Marks.{Has, Small};
ghost use Rattle.queries.specs.Scans.{choose, opensIn};
ghost use Rattle.judge_proposals.specs.Mixed.{opens_of, opensBelow, Table};

use names::inner::word_at;
use queries::Kind;
use queries::inner::{chosen, end_of};
use queries::name_set::NameSet;
use records::Open;

/// Puts in the names of a variable and of its type, if its word says that it has one.
fn add_bound(types: &[u32], x: u32, w: u32, k: Kind, names: &mut NameSet)
    requires { (t : Option (Ty ℕ)) × SaysAt types.now w t }
    ensures { (t : Option (Ty ℕ)) (xs : List ℕ) → SaysAt types.now w t → Has names.old xs → Has names.new (xs ++ choose k (opens_of x t)) }
{
    if w == 0 {
        return;
    }
    let at = w as usize - 1;
    let end = end_of(types, at);
    if let Some(n) = chosen(k, Open::Var(x)) {
        names.insert(n);
    }
    names.extend(types, at, end, k);
}

/// The same for all variables.
fn add_table(types: &[u32], places: &[u32], k: Kind, found: &mut NameSet)
    requires { (bs : List (Binding ℕ)) × ((names : List Bytes) × Table types.now places.now names bs) }
    ensures { (bs : List (Binding ℕ)) (names : List Bytes) (xs : List ℕ) → Table types.now places.now names bs → Has found.old xs →
        Has found.new (xs ++ choose k (opensBelow names bs 256)) }
{
    for x in 0..256 {
        add_bound(types, x, word_at(places, x as usize), k, found);
    }
}

/// Is no name both?
pub fn apart(set: &[u32], types: &[u32], places: &[u32]) -> bool
    requires { (bs : List (Binding ℕ)) × ((names : List Bytes) × Table types.now places.now names bs) }
    ensures { (bs : List (Binding ℕ)) (names : List Bytes) → Table types.now places.now names bs →
        Small (opensIn set.now 0 (length set.now / 4) ++ collect opensBinding bs) →
        result ≡ unmixed (numbered names) (opensIn set.now 0 (length set.now / 4) ++ collect opensBinding bs) }
{
    let n = set.len() / 4;
    let mut variables = NameSet::new();
    variables.extend(set, 0, n, Kind::Variables);
    add_table(types, places, Kind::Variables, &mut variables);
    let mut parameters = NameSet::new();
    parameters.extend(set, 0, n, Kind::Parameters);
    add_table(types, places, Kind::Parameters, &mut parameters);
    variables.is_disjoint(&parameters)
}
