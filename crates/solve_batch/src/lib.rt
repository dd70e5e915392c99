// The public call of batches: several sets over one name table, solved one after another.
#![tactic(auto)]

pub mod inner;
pub mod theorems;

ghost use Rattle.std.specs.Prelude.{◌≡◌};
ghost use Rattle.rules.specs.Batches.{batchCall};
ghost use Rattle.solve_batch.specs.Told.{batchAs};

use inner::{all_lent, fits, solve_each};
use names::tables::NameTable;
use records_buffers::inner::clear;
use rules::Refusal;

/// Solves several sets. They stand back to back in `sets`, each as long as `lengths` says in records. Their answers are written back to back to the
/// result buffer, and of each set four words go into `answers`: refusal or 0, completed rounds, records of bindings or of what remains, records of
/// bounds. It answers how many records were written.
/// Refusals of the whole: 10, something that is lent is too short; 8, more than 64 sets; 1, the lengths don't add up. They leave the result buffer
/// and `answers` as they were. But for 10 the work buffer is left all zero.
///
/// Each set's answer is worth what that of `solve::solve` is: an accepted set's constraints are true where no variable that stands in one of its
/// dimension products is bound to anything but a dimension or a variable; elsewhere ask the judge, or `solve_confirm::confirm`.
pub fn solve_all(
    pool: &[u8],
    table: &[u32],
    sets: &[u32],
    lengths: &[u32],
    res: &mut [u32],
    answers: &mut [u32],
    work: &mut [u32],
) -> Result<usize, Refusal>
    ensures { batchAs result res.new answers.new work.new ≡ batchCall pool.now table.now sets.now lengths.now res.old answers.old work.old }
{
    if !all_lent(pool, table, lengths, res, answers, work) {
        return Err(Refusal::ShortBuffer);
    }
    match fits(sets, lengths) {
        Ok(()) => {
            let names = NameTable::new(pool, table);
            let n = solve_each(names, sets, lengths, res, answers, work);
            clear(work);
            Ok(n)
        }
        Err(r) => {
            clear(work);
            Err(r)
        }
    }
}
