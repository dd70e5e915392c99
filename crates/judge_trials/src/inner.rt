// A constraint is written with the bindings put in, measured, and tested; the first that isn't true decides.
ghost use Rattle.std.specs.Prelude.{◌≡◌, true, List, ℕ, ◌≤◌, length};
ghost use Rattle.rules.specs.Base.{bounded, refused};
ghost use Rattle.rules.specs.Judging.{failed, failing, judge};
ghost use Rattle.rules.specs.Refusals.{number_of, told, toldBy, toldOption};
ghost use Rattle.rules.specs.Trees.{Con, Binding};
ghost use Rattle.records.specs.Good.{goodCon, numbers};
ghost use Rattle.queries.specs.Marks.{Has};
ghost use Rattle.judge_trials.specs.Trials.{ConStands, tested, Put, SetThere, Plain, lookOf, judgedBy};

use judge_meaning::inner::truth::holds;
use names::tables::NameTable;
use queries::name_set::NameSet;
use records::inner::con_end;
use replace::inner::constraints::replace_constraint;
use replace::substitution::Substitution;
use rules::{RECORD_WORDS, RECORDS, Refusal};
use types::writer::Writer;
use types::{Constraint, Constraints};

// A refusal of replacing: 6 counts as failure.
fn stopped(why: Refusal) -> Result<bool, Refusal>
    ensures { told result ≡ failed (refused (number_of why)) }
{
    if why.number() == 6 {
        Ok(false) // the bindings don't fit
    } else {
        Err(why)
    }
}

// The constraint of n records at the start: is it short and flat enough, and is it true?
fn test(names: NameTable, w: &[u32], n: usize, bounds: &NameSet) -> Result<bool, Refusal>
    requires constraint_stands { (d : Con ℕ) × ConStands names.pool.now names.table.now w.now n d }
    ensures { (d : Con ℕ) (xs : List ℕ) → ConStands names.entry.pool.now names.entry.table.now w.now n d → Has bounds.now xs →
        told result ≡ tested names.entry.pool.now names.entry.table.now xs d }
{
    if RECORDS < n {
        return Err(Refusal::TooLarge);
    }
    match con_end(names, w, 0) {
        Some(_) => Ok(holds(Constraint { words: w, at: 0 }, bounds)),
        None => Err(Refusal::TooLarge), // nested over 64
    }
}

// Is a constraint true, once what is bound is put in at the start of the work buffer?
fn is_true(
    by: Substitution,
    c: Constraint,
    bounds: &NameSet,
    work: &mut [u32],
) -> Result<bool, Refusal>
    requires good { goodCon by.names.pool.now by.names.table.now 0 c.tree.0 ≡ true }
    requires plain { Plain by }
    requires work_room { 8192 ≤ length work.old }
    ensures { (bs : List (Binding ℕ)) (xs : List ℕ) → by.entry.lent.0 ≡ lookOf by.entry bs → Has bounds.now xs →
        told result ≡ judgedBy by.entry bs xs c.entry.tree.0 }
{
    let mut out = Writer {
        words: &mut work[..RECORD_WORDS],
        at: 0,
    };
    match replace_constraint(by, c, &mut out) {
        Ok(()) => {
            let n = out.at;
            test(by.names, out.words, n, bounds)
        }
        Err(why) => stopped(why),
    }
}

/// Which constraint of the set isn't true, the first, counted from 0? The first that isn't, or has no answer, decides.
pub fn first_failing(
    names: NameTable,
    set: &[u32],
    places: &[u32],
    types: &[u32],
    bounds: &NameSet,
    work: &mut [u32],
) -> Result<Option<usize>, Refusal>
    requires constraints_stand { (cs : List (Con ℕ)) × SetThere names.pool.now names.table.now set.now cs }
    requires bindings_tabled { (bs : List (Binding ℕ)) × Put names.pool.now names.table.now places.now types.now bs }
    requires bounds_marked { (xs : List ℕ) × Has bounds.now xs }
    requires few_records { length set.now ≤ 8192 }
    requires work_room { 8192 ≤ length work.old }
    ensures { (cs : List (Con ℕ)) (bs : List (Binding ℕ)) (xs : List ℕ) →
        SetThere names.entry.pool.now names.entry.table.now set.now cs
        → Put names.entry.pool.now names.entry.table.now places.now types.now bs → Has bounds.now xs →
        toldBy toldOption result ≡ failing (numbers names.entry.pool.now names.entry.table.now) bounded bs xs 0 cs }
{
    let by = Substitution {
        names,
        places,
        types,
    };
    let constraints = Constraints {
        words: set,
        at: 0,
        end: set.len() / 4,
    };
    let mut before = 0;
    'search: for c in constraints {
        if !is_true(by, c, bounds, work)? {
            return Ok(Some(before));
        }
        before += 1;
    }
    Ok(None)
}

/// Are all constraints of the set true?
pub fn try_all(
    names: NameTable,
    set: &[u32],
    places: &[u32],
    types: &[u32],
    bounds: &NameSet,
    work: &mut [u32],
) -> Result<bool, Refusal>
    requires constraints_stand { (cs : List (Con ℕ)) × SetThere names.pool.now names.table.now set.now cs }
    requires bindings_tabled { (bs : List (Binding ℕ)) × Put names.pool.now names.table.now places.now types.now bs }
    requires bounds_marked { (xs : List ℕ) × Has bounds.now xs }
    requires few_records { length set.now ≤ 8192 }
    requires work_room { 8192 ≤ length work.old }
    ensures { (cs : List (Con ℕ)) (bs : List (Binding ℕ)) (xs : List ℕ) →
        SetThere names.entry.pool.now names.entry.table.now set.now cs
        → Put names.entry.pool.now names.entry.table.now places.now types.now bs → Has bounds.now xs →
        told result ≡ judge (numbers names.entry.pool.now names.entry.table.now) bounded bs xs cs }
{
    match first_failing(names, set, places, types, bounds, work) {
        Ok(None) => Ok(true),
        Ok(Some(_)) => Ok(false),
        Err(why) => Err(why),
    }
}
