// The public call of solving: bindings and bounds, or what remains, for a set of constraints.
#![tactic(auto)]

pub mod inner;
pub mod theorems;

ghost use Rattle.std.specs.Prelude.{◌≡◌};
ghost use Rattle.rules.specs.Calls.{solveCall};
ghost use Rattle.solve.specs.Told.{numberOutcome, solutionAs, Stands, answerTo};

use inner::{solve_set, stopped};
use names::tables::NameTable;
use records_buffers::inner::clear;
use records_buffers::lent;
use rules::Refusal;
pub use solve_finish::Finish;

/// What solving answers: what was written to the result buffer, or why there is no answer; with the number of completed rounds.
#[derive(Clone, Copy)]
pub struct Solution {
    pub outcome: Result<Finish, Refusal>,
    pub rounds: u32,
}

impl Solution {
    /// The number of the outcome: 0 where the set is solved, 5 where constraints remain, or the refusal's.
    pub fn number(self) -> u32
        ensures { result ≡ numberOutcome self.outcome }
    {
        match self.outcome {
            Ok(Finish::Solved(_, _)) => 0,
            Ok(Finish::Unsolved(_)) => Refusal::Unsolved.number(),
            Err(why) => why.number(),
        }
    }
}

/// Solves a set of constraints: bindings and bounds, or the constraints that remain, at the front of the result buffer, whose rest stays as it was.
/// Refusals, in this order: 10, a buffer is short; 8 and 1, the set is too long or not well formed; 4, one name is a variable and a parameter; and
/// those of the rounds (6, 7, 8). A refusal leaves the result buffer as it was. But for 10 the work buffer is left all zero.
///
/// What is answered makes every constraint of the set true where no variable that stands in a dimension product of the set is bound to anything but a
/// dimension or a variable; elsewhere it may not (K10: x y = x z, with x boolean, is accepted). `solve_confirm::confirm` answers only what does.
pub fn solve(
    pool: &[u8],
    table: &[u32],
    words: &[u32],
    res: &mut [u32],
    work: &mut [u32],
) -> Solution
    ensures stands { Stands res.new result (answerTo pool.now table.now words.now res.old work.old) }
    ensures called { solutionAs result res.new work.new ≡ solveCall pool.now table.now words.now res.old work.old }
{
    if !lent(pool, table, res, work) {
        return stopped(Refusal::ShortBuffer, 0);
    }
    let names = NameTable::new(pool, table);
    let s = solve_set(names, words, res, work);
    clear(work);
    s
}
