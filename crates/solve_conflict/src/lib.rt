//! The public call that says which dimension lines of a set conflict: together nothing makes them true, and without any one of them something does.
#![tactic(auto)]

pub mod inner;
pub mod theorems;

ghost use Rattle.std.specs.Prelude.{◌≡◌};
ghost use Rattle.rules.specs.Conflicts.{conflictCall};
ghost use Rattle.solve_conflict.specs.Told.{conflictsAs};

use inner::find_among;
use names::tables::NameTable;
use records_buffers::inner::clear;
use records_buffers::lent;
use rules::Refusal;

/// Which constraints of a set conflict: their places in the set, counted from 0, rising, one a word, stand at the front of the result buffer, whose rest
/// stays as it was. How many there are; nothing where the set's dimension lines can all be true.
///
/// Looked at are the constraints that are equal-scalars, equalities whose sides are dimensions or variables, and is-dimensions of these; the others are
/// passed over. Refusals, in this order: 10, a buffer is short; 8 and 1, the set is too long or not well formed; 4, one name is a variable and a parameter;
/// 7 or 8, met where lines are solved. A refusal leaves the result buffer as it was. But for 10 the work buffer is left all zero.
pub fn conflict(
    pool: &[u8],
    table: &[u32],
    set: &[u32],
    res: &mut [u32],
    work: &mut [u32],
) -> Result<Option<usize>, Refusal>
    ensures { conflictsAs result res.new work.new ≡ conflictCall pool.now table.now set.now res.old work.old }
{
    if !lent(pool, table, res, work) {
        return Err(Refusal::ShortBuffer);
    }
    let found = find_among(NameTable::new(pool, table), set, res, work);
    clear(work);
    found
}
