//! The public call of adding: a constraint is tested and, unless it is satisfied, stored behind the set.
#![tactic(auto)]

pub mod inner;
pub mod theorems;

ghost use Rattle.std.specs.Prelude.{◌≡◌};
ghost use Rattle.rules.specs.Calls.{addCall};
ghost use Rattle.solve_add.specs.Told.{addedAs};

use inner::{add_good, check};
use rules::Refusal;

/// What the test of a constraint says.
#[derive(Clone, Copy, PartialEq, Eq)]
pub enum Verdict {
    Satisfied,
    Violated,
    Unknown,
}

/// Adds a constraint to the set that the first `count` records of the buffer hold: what its test says, and the count of records afterwards.
/// A satisfied constraint is not stored. Refused: 10 where a buffer is short; 8 where the set, the constraint or both together are longer than 2,048
/// records; 1 where the table, the set or the constraint is not well formed. A refusal leaves the buffer as it is.
pub fn add(
    pool: &[u8],
    table: &[u32],
    buffer: &mut [u32],
    count: usize,
    con: &[u32],
) -> Result<(Verdict, usize), Refusal>
    ensures { addedAs result buffer.new ≡ addCall pool.now table.now buffer.old count con.now }
{
    let constraint = check(pool, table, buffer, count, con)?;
    add_good(buffer, count, con, constraint)
}
