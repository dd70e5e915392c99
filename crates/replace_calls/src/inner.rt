//! The steps of a call that replaces, past the check of 10.
ghost use Rattle.std.specs.Prelude.{◌≡◌, true, List, ℕ, ◌++◌, ◌/◌, ◌≤◌, length};
ghost use Rattle.rules.specs.Base.{need, all};
ghost use Rattle.rules.specs.Calls.{replacedSet, replacedType};
ghost use Rattle.rules.specs.Contents.{unmixed};
ghost use Rattle.rules.specs.Names.{Bytes, numbered, table_of};
ghost use Rattle.rules.specs.Refusals.{told};
ghost use Rattle.rules.specs.Trees.{Ty, Con};
ghost use Rattle.records.specs.Good.{goodTy, goodCon};
ghost use Rattle.queries.specs.Marks.{Small};
ghost use Rattle.queries.specs.Scans.{opensIn};
ghost use Rattle.records_buffers.specs.Told.{Made};
ghost use Rattle.replace_calls.specs.Entry.{both_over};
ghost use Rattle.replace_calls.specs.Stands.{TypeStands, SetStands, typeCounted, setCounted};
ghost use Rattle.replace_calls.specs.Made.{madeType, madeSet};

use names::tables::NameTable;
use queries::inner::apart;
use records::inner::type_end;
use replace::inner::constraints::replace_constraints;
use replace::inner::flat::constraints_flat;
use replace::inner::walk::replace_type;
use replace::substitution::Substitution;
use replace_table::inner::fill;
use rules::{NAMES, NESTED, RECORD_WORDS, RECORDS, Refusal};
use types::given::short;
use types::writer::Writer;
use types::{Constraints, GivenBindings, GivenSet, GivenType, Type};

// 4 where a name of the two lists is a variable and a parameter.
fn check_apart(words: &[u32], binds: &[u32]) -> Result<(), Refusal>
    requires { Small (opensIn words.now 0 (length words.now / 4) ++ opensIn binds.now 0 (length binds.now / 4)) }
    ensures { (names : List Bytes)
        → told result ≡ need (unmixed (numbered names) (opensIn words.now 0 (length words.now / 4) ++ opensIn binds.now 0 (length binds.now / 4))) 4 }
{
    if apart(words, 0, words.len() / 4, binds, 0, binds.len() / 4) {
        Ok(())
    } else {
        Err(Refusal::Mixed)
    }
}

// Is the type at the start, of n records, short and flat enough? How many records, or 8.
fn type_fits(names: NameTable, w: &[u32], n: usize) -> Result<usize, Refusal>
    ensures { (u : Ty ℕ) → TypeStands names.entry.pool.now names.entry.table.now w.now n u → told result ≡ typeCounted u }
{
    if RECORDS < n {
        return Err(Refusal::TooLarge);
    }
    match type_end(names, 0, w, 0, NESTED) {
        Some(_) => Ok(n),
        None => Err(Refusal::TooLarge),
    }
}

// The same of the constraints at the start, of n records.
fn set_fits(names: NameTable, w: &[u32], n: usize) -> Result<usize, Refusal>
    requires { (cs : List (Con ℕ)) × SetStands names.pool.now names.table.now w.now n cs }
    ensures { (cs : List (Con ℕ)) → SetStands names.entry.pool.now names.entry.table.now w.now n cs → told result ≡ setCounted cs }
{
    if RECORDS < n {
        return Err(Refusal::TooLarge);
    }
    let made = Constraints {
        words: w,
        at: 0,
        end: n,
    };
    if constraints_flat(names, made) {
        Ok(n)
    } else {
        Err(Refusal::TooLarge)
    }
}

// Writes a type with its bound variables replaced to the front of the work buffer: how many records, or why not.
fn type_into(bindings: GivenBindings, t: Type, work: &mut [u32]) -> Result<usize, Refusal>
    requires good { goodTy bindings.names.pool.now bindings.names.table.now 0 t.tree.0 ≡ true }
    requires room { 16384 ≤ length work.old }
    ensures { Made (madeType (table_of bindings.entry.names.pool.now bindings.entry.names.table.now) t.entry.tree.0 bindings.entry.all.trees.0)
        work.new result }
{
    let names = bindings.names;
    let all = bindings.all;
    let mut places = [0u32; NAMES];
    fill(all.words, all.at, all.end, &mut places);
    let by = Substitution {
        names,
        places: &places,
        types: all.words,
    };
    let (front, _) = work.split_at_mut(RECORD_WORDS);
    let mut out = Writer {
        words: front,
        at: 0,
    };
    let put = replace_type(by, t, &mut out);
    let n = out.at;
    match put {
        Ok(()) => type_fits(names, front, n),
        Err(k) => Err(k),
    }
}

// The same for constraints.
fn set_into(bindings: GivenBindings, set: Constraints, work: &mut [u32]) -> Result<usize, Refusal>
    requires good { all (goodCon bindings.names.pool.now bindings.names.table.now 0) set.trees.0 ≡ true }
    requires room { 16384 ≤ length work.old }
    ensures { Made (madeSet (table_of bindings.entry.names.pool.now bindings.entry.names.table.now) set.entry.trees.0 bindings.entry.all.trees.0)
        work.new result }
{
    let names = bindings.names;
    let all = bindings.all;
    let mut places = [0u32; NAMES];
    fill(all.words, all.at, all.end, &mut places);
    let by = Substitution {
        names,
        places: &places,
        types: all.words,
    };
    let (front, _) = work.split_at_mut(RECORD_WORDS);
    let mut out = Writer {
        words: front,
        at: 0,
    };
    let put = replace_constraints(by, set, &mut out);
    let n = out.at;
    match put {
        Ok(()) => set_fits(names, front, n),
        Err(k) => Err(k),
    }
}

/// All that replacing in a type does past the check of 10; what it makes is left at the start of the work buffer. How many records.
pub fn make_type(
    names: Result<NameTable, Refusal>,
    words: &[u32],
    binds: &[u32],
    work: &mut [u32],
) -> Result<usize, Refusal>
    requires { 16384 ≤ length work.old }
    ensures { Made (both_over names.entry replacedType words.now binds.now) work.new result }
{
    short(binds)?;
    let given = GivenType::new(names, words)?;
    let bindings = GivenBindings::new(names, binds)?;
    check_apart(words, binds)?;
    type_into(bindings, given.whole, work)
}

/// The same for a set.
pub fn make_set(
    names: Result<NameTable, Refusal>,
    words: &[u32],
    binds: &[u32],
    work: &mut [u32],
) -> Result<usize, Refusal>
    requires { 16384 ≤ length work.old }
    ensures { Made (both_over names.entry replacedSet words.now binds.now) work.new result }
{
    short(binds)?;
    let given = GivenSet::new(names, words)?;
    let bindings = GivenBindings::new(names, binds)?;
    check_apart(words, binds)?;
    set_into(bindings, given.all, work)
}
