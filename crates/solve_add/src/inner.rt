//! The checks at entry, and the storing.
pub mod testing;

ghost use Rattle.std.specs.Prelude.{◌≡◌, List, ℕ, IfOk};
ghost use Rattle.rules.specs.Base.{need};
ghost use Rattle.rules.specs.Names.{Bytes, numbered};
ghost use Rattle.rules.specs.Refusals.{toldBy};
ghost use Rattle.rules.specs.Trees.{Con};
ghost use Rattle.records.specs.Found.{Words32};
ghost use Rattle.solve_add.specs.Told.{addedAs};
ghost use Rattle.solve_add.specs.Entry.{checks, constraint_in, lentBuffer, one_over};
ghost use Rattle.solve_add.specs.Stored.{Ready, addedWith};

use super::Verdict;
use names::tables::NameTable;
use records::inner::copy;
use rules::{POOL_BYTES, RECORD_WORDS, RECORDS, Refusal, TABLE_WORDS};
use testing::test;
use types::{Constraint, GivenSet};

/// Tests the constraint that a list is and, unless it is satisfied, stores the list behind the set's n records, where 2,048 are enough.
pub fn add_good(
    buffer: &mut [u32],
    n: usize,
    con: &[u32],
    constraint: Constraint,
) -> Result<(Verdict, usize), Refusal>
    requires { (cs : List (Con ℕ)) × Ready buffer.old n con.now cs constraint.tree.0 }
    ensures { (names : List Bytes) (cs : List (Con ℕ)) → Ready buffer.old n con.now cs constraint.entry.tree.0
        → addedAs result buffer.new ≡ addedWith (numbered names) buffer.old n con.now cs constraint.entry.tree.0 }
{
    let verdict = test(constraint);
    if let Verdict::Satisfied = verdict {
        return Ok((Verdict::Satisfied, n));
    }
    let more = con.len() / 4;
    if RECORDS < n + more {
        return Err(Refusal::TooLarge);
    }
    copy(con, 0, more, buffer, n);
    Ok((verdict, n + more))
}

// Are pool, table and buffer long enough?
fn lent(pool: &[u8], table: &[u32], buffer: &[u32]) -> bool
    ensures { need result 10 ≡ lentBuffer pool.now table.now buffer.now }
{
    if pool.len() < POOL_BYTES || table.len() < TABLE_WORDS {
        return false;
    }
    RECORD_WORDS <= buffer.len()
}

// The one constraint that a list is: 8 where the list is long, the table's refusal, 1.
fn one_constraint<'a>(
    names: Result<NameTable<'a>, Refusal>,
    con: &'a [u32],
) -> Result<Constraint<'a>, Refusal>
    ensures { toldBy constraint_in result ≡ one_over names.entry con.now }
{
    let set = GivenSet::new(names, con)?;
    match set.all.split_first() {
        None => Err(Refusal::Malformed),
        Some((first, rest)) => match rest.split_first() {
            None => Ok(first),
            Some(_) => Err(Refusal::Malformed),
        },
    }
}

/// The checks at entry: 10, 8, 1; and the constraint. Where they are met, what the buffer holds is words of 32 bits.
pub fn check<'a>(
    pool: &'a [u8],
    table: &'a [u32],
    buffer: &[u32],
    count: usize,
    con: &'a [u32],
) -> Result<Constraint<'a>, Refusal>
    ensures answer { toldBy constraint_in result ≡ checks pool.now table.now buffer.now count con.now }
    ensures words { IfOk result (λ c. Words32 buffer.now) }
{
    if !lent(pool, table, buffer) {
        return Err(Refusal::ShortBuffer);
    }
    if RECORDS < count || RECORD_WORDS < con.len() {
        return Err(Refusal::TooLarge);
    }
    let names = NameTable::new(pool, table);
    GivenSet::new(names, &buffer[..count * 4])?;
    one_constraint(names, con)
}
