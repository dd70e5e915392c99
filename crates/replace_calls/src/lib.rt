//! The public calls of replacing: a type or a set with its bound variables replaced, written to a result buffer.
#![tactic(auto)]

pub mod inner;

ghost use Rattle.std.specs.Prelude.{◌≡◌};
ghost use Rattle.rules.specs.Calls.{replaceTypeCall, replaceSetCall};
ghost use Rattle.records_buffers.specs.Told.{writtenAs};

use inner::{make_set, make_type};
use names::tables::NameTable;
use records_buffers::inner::hand_over;
use records_buffers::lent;
use rules::Refusal;

/// The type with its bound variables replaced, in the result buffer: how many records. But for 10 the work buffer is left all zero.
pub fn replace_in_type(
    pool: &[u8],
    table: &[u32],
    words: &[u32],
    binds: &[u32],
    res: &mut [u32],
    work: &mut [u32],
) -> Result<usize, Refusal>
    ensures { writtenAs result res.new work.new ≡ replaceTypeCall pool.now table.now words.now binds.now res.old work.old }
{
    if !lent(pool, table, res, work) {
        return Err(Refusal::ShortBuffer);
    }
    let names = NameTable::new(pool, table);
    let made = make_type(names, words, binds, work);
    hand_over(made, res, work)
}

/// The set with its bound variables replaced, in the result buffer: how many records. But for 10 the work buffer is left all zero.
pub fn replace_in_set(
    pool: &[u8],
    table: &[u32],
    words: &[u32],
    binds: &[u32],
    res: &mut [u32],
    work: &mut [u32],
) -> Result<usize, Refusal>
    ensures { writtenAs result res.new work.new ≡ replaceSetCall pool.now table.now words.now binds.now res.old work.old }
{
    if !lent(pool, table, res, work) {
        return Err(Refusal::ShortBuffer);
    }
    let names = NameTable::new(pool, table);
    let made = make_set(names, words, binds, work);
    hand_over(made, res, work)
}
