//! The public call of the second engine: a set of equal-scalar constraints solved by rows of powers.
#![tactic(auto)]

pub mod inner;
pub mod theorems;

ghost use Rattle.std.specs.Prelude.{◌≡◌};
ghost use Rattle.engine.specs.Told.{numberEliminated, eliminationAs};
ghost use Rattle.rules.specs.Elimination.{eliminateCall};

use inner::eliminate_set;
use names::tables::NameTable;
use records_buffers::inner::clear;
use records_buffers::lent;
use rules::Refusal;

/// What a set came to: how many records of bindings were written, or how many records of constraints that remain.
#[derive(Clone, Copy, PartialEq, Eq)]
pub enum Eliminated {
    Bound(usize),
    Left(usize),
}

/// The number of an answer: 0 where the set is solved, 5 where constraints remain, or the refusal's.
pub fn number(answer: Result<Eliminated, Refusal>) -> u32
    ensures { result ≡ numberEliminated answer }
{
    match answer {
        Ok(Eliminated::Bound(_)) => 0,
        Ok(Eliminated::Left(_)) => Refusal::Unsolved.number(),
        Err(why) => why.number(),
    }
}

/// The set eliminated: bindings, or the constraints that remain, in the result buffer; the work buffer is left all zero.
/// Refuses with 10 (and leaves the work buffer), 8, 1, 4 and 7.
pub fn eliminate(
    pool: &[u8],
    table: &[u32],
    words: &[u32],
    res: &mut [u32],
    work: &mut [u32],
) -> Result<Eliminated, Refusal>
    ensures { eliminationAs result res.new work.new ≡ eliminateCall pool.now table.now words.now res.old work.old }
{
    if !lent(pool, table, res, work) {
        return Err(Refusal::ShortBuffer);
    }
    let names = NameTable::new(pool, table);
    let answer = eliminate_set(names, words, res);
    clear(work);
    answer
}
