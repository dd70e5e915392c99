//! One round: the first constraint to which a rule applies is taken, and the state after it is written to another buffer, in the order of the rules.
ghost use Rattle.std.specs.Prelude.{◌≡◌, List, [], ◌∷◌, ℕ, ◌≤◌, length};
ghost use Rattle.rules.specs.Base.{collect, each};
ghost use Rattle.rules.specs.Rounds.{State};
ghost use Rattle.rules.specs.Trees.{Ty, Con, ◌≔◌};
ghost use Rattle.rules.specs.Writing.{writeCon};
ghost use Rattle.names.specs.declared.tables.NameTable.{NameTable};
ghost use Rattle.replace.specs.Leaves.{conBy, Leaves};
ghost use Rattle.solve_round.specs.Parts.{appends, Are, Beside, BoundTo, First, Known, keeps, leaf, Limited, Made, Next, others, Puts, SoundOthers, SoundSet};
ghost use Rattle.solve_round.specs.Standing.{performed, rebound, Rounds, rounded, SoundState, Standing, StandsAs, stateOf, TakenBy, Took};
ghost use Rattle.solve_round.specs.States.{stillStuck, written};

use super::{After, Ends, Others, Place};
use names::tables::NameTable;
use replace::inner::constraints::{replace_bindings, replace_constraints};
use replace::inner::flat::{bindings_flat, constraints_flat};
use replace::substitution::Substitution;
use replace_table::inner::fill;
use rules::{NAMES, RECORDS, Refusal};
use solve_step::Step;
use solve_step::inner::try_satisfy;
use types::writer::Writer;
use types::{Bindings, Constraint, Constraints, Shape, Type};

/// Is a type a name, a basic type or a dimension? Such a type is nested 1 deep.
#[tactic(auto, unfolding(crate::specs::Parts::leaf))]
fn is_leaf(t: Type) -> bool
    ensures { result ≡ leaf t.entry.tree.0 }
{
    match t.shape() {
        Shape::Open(_) => true,
        Shape::Basic(_) => true,
        Shape::Dimension(_) => true,
        Shape::Function(_, _) => false,
        Shape::Struct(_, _, _) => false,
        Shape::List(_) => false,
    }
}

/// Is the first of some bindings one to such a type?
fn binds_leaf(bindings: Bindings) -> bool
    ensures { (x : ℕ) (t : Ty ℕ) → bindings.entry.trees.0 ≡ x ≔ t ∷ [] → result ≡ leaf t }
{
    match bindings.split_first() {
        Some((first, _)) => is_leaf(first.to),
        None => true,
    }
}

/// The state that was made, if it keeps the limits. It is not walked where it is known to be flat.
fn limited(names: NameTable, out: &Writer, ends: Ends, flat: bool) -> Result<Option<Ends>, Refusal>
    requires made { (st : State ℕ) × Made names.pool.now names.table.now out.now.words.now ends st × Known flat st }
    ensures { (st : State ℕ) → Made names.entry.pool.now names.entry.table.now out.now.words.now ends st → Known flat st → Limited ends st result (keeps st) }
{
    if RECORDS < ends.bindings {
        return Err(Refusal::TooLarge);
    }
    if flat {
        return Ok(Some(ends));
    }
    let constraints = Constraints {
        words: out.words,
        at: 0,
        end: ends.constraints,
    };
    if !constraints_flat(names, constraints) {
        return Err(Refusal::TooLarge);
    }
    let bindings = Bindings {
        words: out.words,
        at: ends.constraints,
        end: ends.bindings,
    };
    if !bindings_flat(names, bindings) {
        return Err(Refusal::TooLarge);
    }
    Ok(Some(ends))
}

/// Writes the other constraints, the new ones behind them, and the bindings. No rule makes a constraint deeper (`only_binding_deepens`), so the records are
/// counted and no more.
fn append(rest: Others, new: Constraints, out: &mut Writer) -> Result<Option<Ends>, Refusal>
    requires front { out.old.at ≡ 0 }
    requires room { 8192 ≤ length out.old.words.now }
    ensures { (pool table : List ℕ) → SoundOthers pool table rest.entry → SoundSet pool table new.entry.trees.0
        → Next pool table out.old out.new result (appends rest.entry new.entry.trees.0) }
{
    out.copy_constraints(rest.before);
    out.copy_constraints(rest.behind);
    out.copy_constraints(new);
    let constraints = out.at;
    out.copy_bindings(rest.bindings);
    if RECORDS < out.at {
        return Err(Refusal::TooLarge); // too many records
    }
    Ok(Some(Ends {
        constraints,
        bindings: out.at,
    }))
}

/// Writes the other constraints with what is bound put in.
fn replace_others(by: Substitution, rest: Others, out: &mut Writer) -> Result<(), Refusal>
    requires { SoundOthers by.names.pool.now by.names.table.now rest }
    ensures { Leaves (collect writeCon) out.old out.new result (each (conBy by.entry) (others rest.entry)) }
{
    replace_constraints(by, rest.before, out)?;
    replace_constraints(by, rest.behind, out)
}

/// Writes the other constraints and the bindings with what is bound put in, and the new binding behind them.
fn rebind(
    by: Substitution,
    rest: Others,
    new: Bindings,
    out: &mut Writer,
) -> Result<Option<Ends>, Refusal>
    requires sound { SoundOthers by.names.pool.now by.names.table.now rest }
    requires bound { (x : ℕ) × (t : Ty ℕ) × BoundTo by.names.pool.now by.names.table.now new x t × Puts by x t }
    requires front { out.old.at ≡ 0 }
    requires room { 8192 ≤ length out.old.words.now }
    requires near { length out.old.words.now ≤ 4_000_000_000 }
    ensures { (x : ℕ) (t : Ty ℕ) → BoundTo by.entry.names.pool.now by.entry.names.table.now new.entry x t → Puts by.entry x t
        → Next by.entry.names.pool.now by.entry.names.table.now out.old out.new result (rebound by.entry.names rest.entry x t) }
{
    replace_others(by, rest, out)?;
    let constraints = out.at;
    replace_bindings(by, rest.bindings, out)?;
    out.copy_bindings(new);
    let ends = Ends {
        constraints,
        bindings: out.at,
    };
    let flat = binds_leaf(new); // then nothing became deeper (`only_binding_deepens`)
    limited(by.names, out, ends, flat)
}

/// The same with a table of the new binding alone.
fn bind(
    names: NameTable,
    rest: Others,
    new: Bindings,
    out: &mut Writer,
) -> Result<Option<Ends>, Refusal>
    requires sound { SoundOthers names.pool.now names.table.now rest }
    requires bound { (x : ℕ) × (t : Ty ℕ) × BoundTo names.pool.now names.table.now new x t }
    requires front { out.old.at ≡ 0 }
    requires room { 8192 ≤ length out.old.words.now }
    requires near { length out.old.words.now ≤ 4_000_000_000 }
    ensures { (x : ℕ) (t : Ty ℕ) → BoundTo names.entry.pool.now names.entry.table.now new.entry x t
        → Next names.entry.pool.now names.entry.table.now out.old out.new result (rebound names.entry rest.entry x t) }
{
    let mut places = [0u32; NAMES];
    fill(new.words, new.at, new.end, &mut places);
    let by = Substitution {
        names,
        places: &places,
        types: new.words,
    };
    rebind(by, rest, new, out)
}

/// The same with the first of `new`, up to the record `end`, as the new ones.
fn append_first(
    rest: Others,
    new: &[u32],
    end: usize,
    out: &mut Writer,
) -> Result<Option<Ends>, Refusal>
    requires first { (cs : List (Con ℕ)) × First new.now end cs }
    requires new_near { length new.now ≤ 4_000_000_000 }
    requires front { out.old.at ≡ 0 }
    requires room { 8192 ≤ length out.old.words.now }
    ensures { (pool table : List ℕ) (cs : List (Con ℕ)) → First new.now end cs → SoundOthers pool table rest.entry → SoundSet pool table cs
        → Next pool table out.old out.new result (appends rest.entry cs) }
{
    if RECORDS < end {
        return Err(Refusal::TooLarge);
    }
    let constraints = Constraints {
        words: new,
        at: 0,
        end,
    };
    append(rest, constraints, out)
}

/// Does what the step of the constraint that is taken says; what is new stands at the front of `new`.
fn perform(
    names: NameTable,
    rest: Others,
    step: Step,
    new: &[u32],
    out: &mut Writer,
) -> Result<Option<Ends>, Refusal>
    requires taken { (c : Con ℕ) × TakenBy names new.now rest step c }
    requires new_room { 8192 ≤ length new.now }
    requires new_near { length new.now ≤ 4_000_000_000 }
    requires front { out.old.at ≡ 0 }
    requires room { 8192 ≤ length out.old.words.now }
    requires near { length out.old.words.now ≤ 4_000_000_000 }
    ensures { (c : Con ℕ) → TakenBy names.entry new.now rest.entry step c
        → Next names.entry.pool.now names.entry.table.now out.old out.new result (performed names.entry rest.entry c) }
{
    match step {
        Step::Bind(end) => {
            let bindings = Bindings {
                words: new,
                at: 0,
                end,
            };
            bind(names, rest, bindings, out)
        }
        Step::Split(end) => append_first(rest, new, end, out),
        Step::Done => append_first(rest, new, 0, out),
        Step::Stuck => Ok(None),
    }
}

/// Up to where no rule applies to what a step leaves: the constraints before the one that is taken, of `passed` records, stay as they are; but where a binding
/// is put in, a rule may apply to any of them.
fn still_stuck(step: Step, passed: usize) -> usize
    ensures { result ≡ stillStuck step passed }
{
    match step {
        Step::Bind(_) => 0,
        Step::Split(_) => passed,
        Step::Done => passed,
        Step::Stuck => passed,
    }
}

/// What was written stands at the front.
fn written(made: Result<Option<Ends>, Refusal>, stuck: usize) -> Result<After, Refusal>
    ensures { result ≡ written stuck made }
{
    match made {
        Ok(Some(ends)) => Ok(After::Written(Place {
            start: 0,
            stuck,
            ends,
        })),
        Ok(None) => Ok(After::Nowhere),
        Err(why) => Err(why),
    }
}

/// The state without a constraint that stands behind those before.
fn without<'a>(state: Others<'a>, c: Constraint) -> Others<'a>
    requires { (before behind : List (Con ℕ)) × Beside state c before behind }
    ensures { (before behind : List (Con ℕ)) → Beside state.entry c.entry before behind → Are result before behind state.entry.bindings }
{
    let before = Constraints {
        words: state.behind.words,
        at: state.before.at,
        end: c.at,
    };
    let behind = Constraints {
        words: state.behind.words,
        at: c.end(),
        end: state.behind.end,
    };
    Others {
        before,
        behind,
        bindings: state.bindings,
    }
}

/// The first constraint to which a rule applies is taken, of those behind, since none applies to those before, and the next state written. But where the first
/// of all is done with, the state stays where it is, and begins behind it.
fn turn(
    names: NameTable,
    state: Others,
    new: &mut [u32],
    out: &mut Writer,
) -> Result<After, Refusal>
    requires sound { SoundState names state }
    requires new_room { 8192 ≤ length new.old }
    requires new_near { length new.old ≤ 4_000_000_000 }
    requires front { out.old.at ≡ 0 }
    requires room { 8192 ≤ length out.old.words.now }
    requires near { length out.old.words.now ≤ 4_000_000_000 }
    ensures { Took names.entry state.entry.behind.words.now out.old out.new result (rounded names.entry (stateOf state.entry)) }
{
    'search: for c in state.behind {
        let step = try_satisfy(names, c, new, 0)?;
        let Step::Stuck = step else {
            if c.at == state.before.at {
                if let Step::Done = step {
                    let at = c.end();
                    let ends = Ends {
                        constraints: state.behind.end,
                        bindings: state.bindings.end,
                    };
                    return Ok(After::Read(Place {
                        start: at,
                        stuck: at,
                        ends,
                    }));
                }
            }
            let rest = without(state, c);
            let stuck = still_stuck(step, c.at - state.before.at);
            return written(perform(names, rest, step, new, out), stuck);
        };
    }
    Ok(After::Nowhere)
}

/// The state that stands at a place: the constraints to which no rule applies, those behind them, and the bindings.
fn state_at<'a>(state: &'a [u32], place: Place) -> Others<'a>
    requires standing { (t : NameTable) × (st : State ℕ) × Standing t state.now place st }
    requires near { length state.now ≤ 4_000_000_000 }
    ensures { (t : NameTable) (st : State ℕ) → Standing t state.now place st → StandsAs t state.now result st }
{
    let before = Constraints {
        words: state,
        at: place.start,
        end: place.stuck,
    };
    let behind = Constraints {
        words: state,
        at: place.stuck,
        end: place.ends.constraints,
    };
    let bindings = Bindings {
        words: state,
        at: place.ends.constraints,
        end: place.ends.bindings,
    };
    Others {
        before,
        behind,
        bindings,
    }
}

/// One round on the state that stands at `place` in the list `state`: the state after it stands there too, or at the front of `next`, and it answers where.
/// A refusal says nothing of `next`. `new` is room for what one step makes.
pub fn round(
    names: NameTable,
    state: &[u32],
    place: Place,
    new: &mut [u32],
    next: &mut [u32],
) -> Result<After, Refusal>
    requires standing { (st : State ℕ) × Standing names state.now place st }
    requires state_near { length state.now ≤ 4_000_000_000 }
    requires new_room { 8192 ≤ length new.old }
    requires new_near { length new.old ≤ 4_000_000_000 }
    requires room { 8192 ≤ length next.old }
    requires near { length next.old ≤ 4_000_000_000 }
    ensures { (st : State ℕ) → Standing names.entry state.now place st → Rounds names.entry state.now next.new result (rounded names.entry st) }
{
    let held = state_at(state, place);
    let mut out = Writer { words: next, at: 0 };
    turn(names, held, new, &mut out)
}
