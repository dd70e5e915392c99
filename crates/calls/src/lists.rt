//! Of the calls on lists of records those that take more than one step.
ghost use Rattle.std.specs.Prelude.{◌≡◌, length, min};
ghost use Rattle.std.proofs.lemmas.List.Edits.{sets};
ghost use Rattle.rules.specs.Calls.{lent, addCall};
ghost use Rattle.calls_defined.specs.Saying.{checkedAs, addedAs};
ghost use Rattle.calls_defined.specs.Dispatch.{done, batchOf};

use calls_defined::told::{Told, added, batched, refused, said};
use calls_defined::words::fill;
use records_buffers::lent;
use rules::Refusal;
use solve_add::add;
use solve_batch::solve_all;

// The words of a batch's answers, at the most: more than its 64 sets have.
const ANSWERS: usize = 512;

/// Adds to a set. The result buffer begins with it.
pub fn adding_to(
    pool: &[u8],
    table: &[u32],
    a: &[u32],
    count: u32,
    con: &[u32],
    buffer: &mut [u32],
) -> Told
    ensures value { result ≡ addedAs (addCall pool.now table.now (sets buffer.old 0 a.now) count con.now).answer (length a.now) }
    ensures buffer_after { buffer.new ≡ (addCall pool.now table.now (sets buffer.old 0 a.now) count con.now).buffer }
{
    fill(a, buffer);
    added(add(pool, table, buffer, count as usize, con), a.len())
}

/// Is so much lent as a call needs?
pub fn lent_told(pool: &[u8], table: &[u32], res: &[u32], work: &[u32]) -> Told
    ensures { result ≡ checkedAs (lent pool.now table.now res.now work.now) }
{
    if lent(pool, table, res, work) {
        said(0, 0, 0)
    } else {
        refused(Refusal::ShortBuffer, 0, 0)
    }
}

/// Several sets. The first x words of the result buffer are lent as the buffer of their answers, the others as the result buffer.
pub fn batch(
    pool: &[u8],
    table: &[u32],
    sets: &[u32],
    lengths: &[u32],
    x: u32,
    res: &mut [u32],
    work: &mut [u32],
) -> Told
    ensures { done result res.new work.new ≡
        batchOf (min (min x 512) (length res.old)) pool.now table.now sets.now lengths.now res.old work.old }
{
    let n = (x as usize).min(ANSWERS).min(res.len());
    let (answers, rest) = res.split_at_mut(n);
    batched(
        solve_all(pool, table, sets, lengths, rest, answers, work),
        n,
    )
}
