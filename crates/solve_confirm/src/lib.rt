//! The public call that solves a set and confirms its answer: what it answers makes every constraint of the set true.
#![tactic(auto)]

pub mod inner;
pub mod theorems;

ghost use Rattle.std.specs.Prelude.{◌≡◌};
ghost use Rattle.rules.specs.Confirming.{confirmCall};
ghost use Rattle.solve.specs.Told.{solutionAs};

pub use inner::Confirmed;
use inner::solve_and_judge;
use names::tables::NameTable;
use records::inner::copy;
use records_buffers::inner::clear;
use records_buffers::lent;
use rules::{RECORD_WORDS, Refusal};
use solve::Solution;
use solve::inner::{records, stopped};

/// Solves a set of constraints, and answers only what the judge confirms over the same set: bindings and bounds under which every constraint of the
/// set is true, with no premise. They stand at the front of the result buffer, whose rest stays as it was.
///
/// Refusals, in this order: those of `solve::solve` (10, 8, 1, 4, then those of the rounds, 5 among them); then, of an answer that solving accepts,
/// 7 or 8 where the judge meets them, and 11 for its no. Where constraints remain (5) they stand at the front of the result buffer; every other refusal
/// leaves it as it was. Rounds are those of solving, beside 11 too. But for 10 the work buffer is left all zero.
pub fn confirm(
    pool: &[u8],
    table: &[u32],
    set: &[u32],
    res: &mut [u32],
    work: &mut [u32],
) -> Solution
    ensures { solutionAs result res.new work.new ≡ confirmCall pool.now table.now set.now res.old work.old }
{
    if !lent(pool, table, res, work) {
        return stopped(Refusal::ShortBuffer, 0);
    }
    let names = NameTable::new(pool, table);
    // An answer stands here until the judge has said yes.
    let mut found = [0u32; RECORD_WORDS];
    let solution = solve_and_judge(names, set, &mut found, work).ruled();
    copy(&found, 0, records(solution), res, 0);
    clear(work);
    solution
}
