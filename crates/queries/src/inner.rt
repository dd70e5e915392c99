// The work on records that are known to hold a type, a set or bindings.
// In prefix order every open name has a record of its own, so one pass over the records from b up to e finds them all, in their order.
ghost use Rattle.std.specs.Prelude.{◌≡◌, List, [], ◌∷◌, ◌++◌, ℕ, ◌+◌, ◌-◌, ◌≤◌, ◌<◌, eqb, length, get_or, option_to_list};
ghost use Rattle.rules.specs.Base.{any, isNil};
ghost use Rattle.rules.specs.Trees.{Ty, size};
ghost use Rattle.rules.specs.Names.{Bytes, numbered};
ghost use Rattle.rules.specs.Contents.{closed, unmixed, sort};
ghost use Rattle.laws.specs.Lists.{Every};
ghost use Rattle.names.specs.Told.{toldOrder};
ghost use Rattle.records.specs.Views.{viewAt};
ghost use Rattle.records.specs.Holds.{openOf, atomOf, Holds};
ghost use Rattle.records.specs.Good.{numbers};
ghost use Rattle.queries.specs.Scans.{toldOpens, opensAtom, opensView, opensIn, choose};
ghost use Rattle.queries.specs.Marks.{Small, Filled, sooner};

use super::Kind;
use super::name_set::NameSet;
use names::tables::NameTable;
use records::seen::{length_at, view_at};
use records::{Atom, Open, View};
use std::cmp::Ordering;

fn atom_opens(a: Atom) -> Option<Open>
    ensures { toldOpens result ≡ opensAtom (atomOf a) }
{
    match a {
        Atom::Free(o) => Some(o),
        Atom::Base(_) => None,
    }
}

// The open name of the record at a place: a type's or a factor's, or a binding's variable.
pub fn opens_at(s: &[u32], i: usize) -> Option<Open>
    ensures { toldOpens result ≡ opensView (viewAt s.now i) }
{
    match view_at(s, i) {
        View::Opened(o) => Some(o),
        View::Factor(a, _, _) => atom_opens(a),
        View::Binding(x) => Some(Open::Var(x)),
        _ => None,
    }
}

// The name of an open name, if it is of that kind.
pub fn chosen(k: Kind, o: Open) -> Option<u32>
    ensures { option_to_list result ≡ choose k (openOf o ∷ []) }
{
    match o {
        Open::Var(x) => match k {
            Kind::Variables => Some(x),
            Kind::Parameters => None,
            Kind::Both => Some(x),
        },
        Open::Quant(_) => None,
        Open::Par(x) => match k {
            Kind::Variables => None,
            Kind::Parameters => Some(x),
            Kind::Both => Some(x),
        },
    }
}

// The name of that kind which the record at a place gives.
pub fn name_at(s: &[u32], i: usize, k: Kind) -> Option<u32>
    ensures { option_to_list result ≡ choose k (opensView (viewAt s.now i)) }
{
    match opens_at(s, i) {
        Some(o) => chosen(k, o),
        None => None,
    }
}

// Is x one of the names of that kind?
pub fn occurs(s: &[u32], b: usize, e: usize, k: Kind, x: u32) -> bool
    ensures { result ≡ any (eqb x) (choose k (opensIn s.now b e)) }
{
    for i in b..e {
        if name_at(s, i, k) == Some(x) {
            return true;
        }
    }
    false
}

// Is there no open name?
pub fn none_open(s: &[u32], b: usize, e: usize) -> bool
    ensures { result ≡ isNil (opensIn s.now b e) }
{
    for i in b..e {
        if opens_at(s, i).is_some() {
            return false;
        }
    }
    true
}

// Refusal 4 on two runs of records: is no name both a variable and a parameter?
pub fn apart(s: &[u32], b: usize, e: usize, u: &[u32], c: usize, f: usize) -> bool
    requires { Small (opensIn s.now b e ++ opensIn u.now c f) }
    ensures { (names : List Bytes) → result ≡ unmixed (numbered names) (opensIn s.now b e ++ opensIn u.now c f) }
{
    let mut variables = NameSet::new();
    variables.extend(s, b, e, Kind::Variables);
    variables.extend(u, c, f, Kind::Variables);
    let mut parameters = NameSet::new();
    parameters.extend(s, b, e, Kind::Parameters);
    parameters.extend(u, c, f, Kind::Parameters);
    variables.is_disjoint(&parameters)
}

// Refusal 4 on one run of records.
pub fn is_unmixed(s: &[u32], b: usize, e: usize) -> bool
    requires { Small (opensIn s.now b e) }
    ensures { (names : List Bytes) → result ≡ unmixed (numbered names) (opensIn s.now b e) }
{
    apart(s, b, e, s, 0, 0)
}

// Where the type at a place ends.
pub fn end_of(s: &[u32], at: usize) -> usize
    requires { (t : Ty ℕ) × Holds s.now t at }
    ensures { (t : Ty ℕ) → Holds s.now t at → result ≡ at + size t }
{
    at + length_at(s, at)
}

// Is the type at a place closed?
pub fn closed_at(s: &[u32], at: usize) -> bool
    requires { (t : Ty ℕ) × Holds s.now t at }
    ensures { (t : Ty ℕ) → Holds s.now t at → result ≡ closed t }
{
    none_open(s, at, end_of(s, at))
}

// The first by name bytes of the best name so far and x.
pub fn sooner(names: NameTable, best: Option<u32>, x: u32) -> Option<u32>
    ensures { result ≡ sooner (numbers names.entry.pool.now names.entry.table.now) best x }
{
    let Some(y) = best else {
        return Some(x);
    };
    match names.order(x, y) {
        Ordering::Less => Some(x),
        Ordering::Equal | Ordering::Greater => Some(y),
    }
}

// Writes the names of that kind, sorted by name bytes, once each, and says how many.
pub fn list_names(
    names: NameTable,
    s: &[u32],
    b: usize,
    e: usize,
    k: Kind,
    out: &mut [u32],
) -> usize
    requires every { Every (λ x. x < get_or names.table.now 0 0) (choose k (opensIn s.now b e)) }
    requires room { 256 ≤ length out.old }
    ensures { Filled (sort (numbers names.entry.pool.now names.entry.table.now) (choose k (opensIn s.now b e))) result out.old out.new }
{
    let mut found = NameSet::new();
    found.extend(s, b, e, k);
    found.write_sorted(names, out)
}
