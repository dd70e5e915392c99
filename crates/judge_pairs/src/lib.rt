//! The judge for callers that lend their entries as pairs of words: the same answer, with no slice of structs.
#![tactic(auto)]

pub mod inner;

ghost use Rattle.std.specs.Prelude.{◌≡◌};
ghost use Rattle.rules.specs.Calls.{judgeCall};
ghost use Rattle.judge.specs.Told.{judgedAs};
ghost use Rattle.judge_pairs.specs.Pairs.{entriesIn};

use inner::slots_of;
use judge::inner::{Proposal, judge_slots};
use rules::Refusal;

/// Is each constraint of the set true once the bindings of the pairs are put in: of each a variable, and the place of its type? An odd last word is not
/// looked at. Refused as `judge::judge` refuses; the work buffer is left all zero, except for a refusal 10.
pub fn judge_pairs(
    pool: &[u8],
    table: &[u32],
    set: &[u32],
    pairs: &[u32],
    types: &[u32],
    bounds: &[u32],
    work: &mut [u32],
) -> Result<bool, Refusal>
    ensures { judgedAs result work.new ≡ judgeCall pool.now table.now set.now (entriesIn pairs.now) types.now bounds.now work.old }
{
    let proposal = Proposal {
        types,
        bounds,
        slots: slots_of(pairs),
    };
    judge_slots(pool, table, set, proposal, work)
}
