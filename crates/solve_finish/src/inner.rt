//! The work on a state that is held: the constraints that remain, or the bindings and bounds.
ghost use Rattle.std.specs.Prelude.{◌≡◌, List, [], map, ℕ, ◌+◌, ◌-◌, ◌*◌, ◌^◌, ◌≤◌, ◌<◌, length, take};
ghost use Rattle.std.proofs.lemmas.List.Edits.{sets};
ghost use Rattle.rules.specs.Base.{collect};
ghost use Rattle.rules.specs.Refusals.{toldOption};
ghost use Rattle.rules.specs.Rounds.{State};
ghost use Rattle.rules.specs.Solving.{boundOf};
ghost use Rattle.rules.specs.Views.{name_of};
ghost use Rattle.rules.specs.Writing.{words, writeCon};
ghost use Rattle.records.specs.Holds.{openOf};
ghost use Rattle.types.specs.Written.{Writes};
ghost use Rattle.solve_round.specs.Standing.{Standing};
ghost use Rattle.solve_finish.specs.Told.{others, boundRec, Copied, Accepted, Finished};

use super::Finish;
use names::tables::NameTable;
use queries::Kind;
use queries::inner::list_names;
use records::inner::{copy, put_one};
use records::{Open, View};
use rules::NAMES;
use solve_round::Place;
use types::writer::Writer;
use types::{Constraint, Constraints, Demand, Shape};

/// The name of a variable or a parameter.
fn name_of(o: Open) -> Option<u32>
    ensures { toldOption result ≡ name_of (openOf o) }
{
    match o {
        Open::Var(x) => Some(x),
        Open::Quant(_) => None,
        Open::Par(x) => Some(x),
    }
}

/// Of which variable or parameter a constraint asks that it is a dimension.
fn bound_of(c: Constraint) -> Option<u32>
    ensures { toldOption result ≡ boundOf c.entry.tree.0 }
{
    match c.demand() {
        Demand::IsDimension(of) => match of.shape() {
            Shape::Open(o) => name_of(o),
            _ => None,
        },
        _ => None,
    }
}

/// Writes the constraints that are no bounds.
fn put_others(constraints: Constraints, out: &mut Writer)
    ensures { Writes out.old out.new (collect writeCon (others constraints.entry.trees.0)) }
{
    'others: for c in constraints {
        if bound_of(c).is_none() {
            out.copy_constraint(c);
        }
    }
}

/// The same to the front of a buffer: how many records they have.
fn copy_others(constraints: Constraints, dst: &mut [u32]) -> usize
    requires { constraints.end ≤ 2048 }
    ensures { Copied dst.old dst.new 0 result (others constraints.entry.trees.0) }
{
    let mut out = Writer { words: dst, at: 0 };
    put_others(constraints, &mut out);
    out.at
}

/// Writes the first k names as bounds.
fn put_bounds(names: &[u32], k: usize, dst: &mut [u32], out: usize)
    requires held { k ≤ length names.now }
    requires small { out + k < 2 ^ 60 }
    ensures { dst.new ≡ sets dst.old (out * 4) (words (map boundRec (take k names.now))) }
{
    for i in 0..k {
        put_one(dst, out + i, View::Bound(Open::Var(names[i])));
    }
}

/// Every constraint is a bound: writes the bindings, then the bounds sorted by name bytes, once each; how many bounds.
fn accept(names: NameTable, s: &[u32], place: Place, res: &mut [u32]) -> usize
    requires standing { (st : State ℕ) × Standing names s.now place st × (others st.cons ≡ []) }
    requires state_room { 8192 ≤ length s.now }
    requires room { 8192 ≤ length res.old }
    ensures { (st : State ℕ) → Standing names.entry s.now place st → others st.cons ≡ []
        → Accepted names.entry.pool.now names.entry.table.now st res.old res.new (place.ends.bindings - place.ends.constraints) result }
{
    let ends = place.ends;
    let mut bounds = [0u32; NAMES];
    let k = list_names(
        names,
        s,
        place.start,
        ends.constraints,
        Kind::Both,
        &mut bounds,
    );
    copy(s, ends.constraints, ends.bindings, res, 0);
    put_bounds(&bounds, k, res, ends.bindings - ends.constraints);
    k
}

/// What is answered where no rule applies to a state.
pub fn finish(names: NameTable, s: &[u32], place: Place, res: &mut [u32]) -> Finish
    requires standing { (st : State ℕ) × Standing names s.now place st }
    requires state_room { 8192 ≤ length s.now }
    requires near { length s.now ≤ 4_000_000_000 }
    requires room { 8192 ≤ length res.old }
    ensures { (st : State ℕ) → Standing names.entry s.now place st → Finished names.entry.pool.now names.entry.table.now st res.old res.new result }
{
    let ends = place.ends;
    let left = copy_others(
        Constraints {
            words: s,
            at: place.start,
            end: ends.constraints,
        },
        res,
    );
    if 0 < left {
        return Finish::Unsolved(left);
    }
    let bounds = accept(names, s, place, res);
    Finish::Solved(ends.bindings - ends.constraints, bounds)
}
