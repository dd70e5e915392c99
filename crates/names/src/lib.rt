//! Names: parts of a pool of bytes, compared by their bytes, and copied in at the pool's first free byte.
#![tactic(auto)]

ghost use Rattle.std.specs.Prelude.{◌≡◌};
ghost use Rattle.rules.specs.Names.{orderBytes, tableGiven, nameAsked, partAsked, enter};
ghost use Rattle.rules.specs.Refusals.{told};
ghost use Rattle.names.specs.Told.{toldOrder, refusalOf, IsPart, entered};

use rules::{POOL_BYTES, Refusal, TABLE_WORDS, Was};
use std::cmp::Ordering;

pub mod inner;
pub mod tables;
pub mod theorems;

/// The order of two names: by bytes, and a name before a longer one that begins with it.
#[tactic(auto, using(crate::proofs::Compared::compared))]
pub fn compare(a: &[u8], b: &[u8]) -> Ordering
    ensures { toldOrder result ≡ orderBytes a.now b.now }
{
    a.cmp(b)
}

/// Are pool and table long enough (else 10), and is the table well formed (else 1)?
#[tactic(auto, using(crate::proofs::Asked::tested), unfolding(rules::specs::Names::tableGiven, rules::specs::Names::lentTable))]
pub fn check_table(pool: &[u8], table: &[u32]) -> Result<(), Refusal>
    ensures { told result ≡ tableGiven pool.now table.now }
{
    if pool.len() < POOL_BYTES || table.len() < TABLE_WORDS {
        return Err(Refusal::ShortBuffer);
    }
    if inner::is_good(pool, table) {
        Ok(())
    } else {
        Err(Refusal::Malformed)
    }
}

/// Is there a name with this number? Refused: 10 and 1 as `check_table` refuses, and 3 where the number is not held.
#[tactic(auto, using(crate::proofs::Asked::asked))]
pub fn check_number(pool: &[u8], table: &[u32], number: u32) -> Result<(), Refusal>
    ensures { told result ≡ refusalOf (nameAsked pool.now table.now number) }
{
    check_table(pool, table)?;
    if inner::is_held(table, number) {
        Ok(())
    } else {
        Err(Refusal::NoRoom) // 3 is also a number that is not held
    }
}

/// The name with this number: that part of the pool itself, and the empty part where `check_number` refuses.
pub fn name_of<'a, 'b>(pool: &'a [u8], table: &'b [u32], number: u32) -> &'a [u8]
    ensures { IsPart pool.entry result (partAsked pool.now table.now number) }
{
    match check_number(pool, table, number) {
        Ok(()) => inner::name_at(pool, table, number as usize),
        Err(_) => &pool[0..0],
    }
}

/// The number of a name, and whether it was known or is new: a name that is not held is entered, with the next number.
/// Refused, and then pool and table stay as they are: 10 and 1 as `check_table` refuses, 2 for a name that is empty or longer than 48 bytes, 3 where
/// no number or too few bytes are left.
#[tactic(auto, using(crate::proofs::Asked::asked))]
pub fn enter(pool: &mut [u8], table: &mut [u32], name: &[u8]) -> Result<(u32, Was), Refusal>
    ensures { entered result pool.new table.new ≡ enter pool.old table.old name.now }
{
    check_table(pool, table)?;
    inner::enter_good(pool, table, name)
}
