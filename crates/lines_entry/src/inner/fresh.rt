// The lent names: no two the same, none used in a type of the line (4), each held (3).
ghost use Rattle.std.specs.Prelude.{◌≡◌, not, eqb, ltb, get_or, map, drop, option_to_list};
ghost use Rattle.rules.specs.Base.{any, all, collect, to_list};
ghost use Rattle.rules.specs.Views.{name_of};
ghost use Rattle.rules.specs.Calls.{differ};
ghost use Rattle.records.specs.Views.{viewAt};
ghost use Rattle.records.specs.Holds.{openOf, atomOf};
ghost use Rattle.rules.specs.Lines.{namesOfTy, namesOfStep, fresh};
ghost use Rattle.lines_entry.specs.Told.{stepOf};
ghost use Rattle.lines_entry.specs.Used.{namesAtom, namesView, namesIn};

use super::steps::Step;
use names::tables::NameTable;
use records::seen::view_at;
use records::{Atom, Open, View};
use types::Type;

// Is x among the lent names from a place on?
fn is_among(lent: &[u32], from: usize, x: u32) -> bool
    ensures { result ≡ any (eqb x) (drop from lent.now) }
{
    for i in from..lent.len() {
        if x == lent[i] {
            return true;
        }
    }
    false
}

// Are no two lent names the same?
fn all_differ(lent: &[u32]) -> bool
    ensures { result ≡ differ lent.now }
{
    for i in 0..lent.len() {
        if is_among(lent, i + 1, lent[i]) {
            return false;
        }
    }
    true
}

/// Is each lent name held?
pub fn all_held(names: NameTable, lent: &[u32]) -> bool
    ensures { result ≡ all (λ n. ltb n (get_or names.entry.table.now 0 0)) lent.now }
{
    for i in 0..lent.len() {
        if !names.is_held(lent[i]) {
            return false;
        }
    }
    true
}

// The name of an open type, where it has one.
fn open_name(o: Open) -> Option<u32>
    ensures { option_to_list result ≡ to_list (name_of (openOf o)) }
{
    match o {
        Open::Var(x) => Some(x),
        Open::Quant(_) => None,
        Open::Par(x) => Some(x),
    }
}

// The name of an atom, where it has one.
fn atom_name(a: Atom) -> Option<u32>
    ensures { option_to_list result ≡ namesAtom (atomOf a) }
{
    match a {
        Atom::Free(o) => open_name(o),
        Atom::Base(x) => Some(x),
    }
}

// The name that the record at a place has, be it a type's, a factor's, a struct's or a field's.
fn name_here(s: &[u32], i: usize) -> Option<u32>
    ensures { option_to_list result ≡ namesView (viewAt s.now i) }
{
    match view_at(s, i) {
        View::Opened(o) => open_name(o),
        View::Struct(x, _, _) => Some(x),
        View::Field(x) => Some(x),
        View::Factor(a, _, _) => atom_name(a),
        _ => None,
    }
}

// Is this the name x?
fn is_name(n: Option<u32>, x: u32) -> bool
    ensures { result ≡ any (eqb x) (option_to_list n) }
{
    match n {
        Some(y) => x == y,
        None => false,
    }
}

// Does a record from b up to e have the name x?
fn used_in(s: &[u32], b: usize, e: usize, x: u32) -> bool
    ensures { result ≡ any (eqb x) (namesIn s.now b e) }
{
    for i in b..e {
        if is_name(name_here(s, i), x) {
            return true;
        }
    }
    false
}

// Does a type use the name x?
fn type_uses(t: Type, x: u32) -> bool
    ensures { result ≡ any (eqb x) (namesOfTy t.entry.tree.0) }
{
    used_in(t.words, t.at, t.end(), x)
}

// Does a step?
#[tactic(auto, unfolding(rules::specs::Lines::namesOfStep, rules::specs::Base::any))]
fn step_uses(step: &Step, x: u32) -> bool
    ensures { result ≡ any (eqb x) (namesOfStep (stepOf step.now)) }
{
    match step {
        Step::Constant(given) => type_uses(given.of, x),
        Step::Reference(given) => type_uses(given.of, x),
        _ => false,
    }
}

// Does one of the steps?
fn one_uses(steps: &[Step], x: u32) -> bool
    ensures { result ≡ any (eqb x) (collect namesOfStep (map stepOf steps.now)) }
{
    for step in steps {
        if step_uses(step, x) {
            return true;
        }
    }
    false
}

// Is none of the lent names used in a step?
fn none_used(steps: &[Step], lent: &[u32]) -> bool
    ensures { result ≡ all (λ n. not (any (eqb n) (collect namesOfStep (map stepOf steps.now)))) lent.now }
{
    for i in 0..lent.len() {
        if one_uses(steps, lent[i]) {
            return false;
        }
    }
    true
}

/// Are no two lent names the same, and is none used in a type that a step points to?
pub fn is_fresh(steps: &[Step], lent: &[u32]) -> bool
    ensures { result ≡ fresh lent.now (map stepOf steps.now) }
{
    all_differ(lent) && none_used(steps, lent)
}
