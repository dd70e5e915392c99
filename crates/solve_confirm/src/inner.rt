//! A set is solved, and an accepted answer is put before the judge over the same set, where it stands.
ghost use Rattle.std.specs.Prelude.{◌≡◌, IfOk, ◌≤◌, length, is_none};
ghost use Rattle.rules.specs.Calls.{solvedSet};
ghost use Rattle.rules.specs.Refusals.{toldBy};
ghost use Rattle.solve.specs.Told.{toldSolution, Stands, Answered};
ghost use Rattle.solve_confirm.specs.Told.{ruledBy, VerdictOn};
ghost use Rattle.types.specs.Given.{call_over};

use judge::inner::{Found, judge_found};
use names::tables::NameTable;
use rules::Refusal;
use solve::inner::{solve_set, stopped};
use solve::{Finish, Solution};

/// What solving answered, and what the judge says of an accepted answer: which constraint isn't true, the first, counted from 0, if any.
#[derive(Clone, Copy)]
pub struct Confirmed {
    pub solution: Solution,
    pub verdict: Result<Option<usize>, Refusal>,
}

impl Confirmed {
    /// The answer of both: an accepted one where the judge says yes, 11 for its no, or why it refuses. The rounds are those of solving.
    pub fn ruled(self) -> Solution
        ensures { toldSolution result ≡ ruledBy (toldBy is_none self.verdict) (toldSolution self.solution) }
    {
        let rounds = self.solution.rounds;
        match (self.solution.outcome, self.verdict) {
            (Ok(Finish::Solved(_, _)), Ok(Some(_))) => stopped(Refusal::NotConfirmed, rounds),
            (Ok(Finish::Solved(_, _)), Err(why)) => stopped(why, rounds),
            _ => self.solution,
        }
    }
}

// What the judge says of an answer whose rows stand at the front of a list; of one that isn't accepted nothing is asked.
fn verdict_on(
    names: Result<NameTable, Refusal>,
    words: &[u32],
    solution: Solution,
    rows: &[u32],
    work: &mut [u32],
) -> Result<Option<usize>, Refusal>
    requires stands { Stands rows.now solution (call_over names solvedSet words.now) }
    requires short { length rows.now ≤ 8192 }
    requires room { 8192 ≤ length work.old }
    ensures { IfOk names.entry (λ n. VerdictOn n words.now result) }
{
    let Ok(names) = names else {
        return Ok(None);
    };
    match solution.outcome {
        Ok(Finish::Solved(bindings, bounds)) => {
            let found = Found {
                words: rows,
                bindings,
                bounds,
            };
            judge_found(names, words, found, work)
        }
        Ok(Finish::Unsolved(_)) => Ok(None),
        Err(_) => Ok(None),
    }
}

/// Solves a set and judges the answer, past the check of 10. The result buffer has 2,048 records.
pub fn solve_and_judge(
    names: Result<NameTable, Refusal>,
    words: &[u32],
    res: &mut [u32],
    work: &mut [u32],
) -> Confirmed
    requires result_room { length res.old ≡ 8192 }
    requires room { 16384 ≤ length work.old }
    ensures answered { Answered (call_over names.entry solvedSet words.now) res.old res.new result.solution }
    ensures judged { IfOk names.entry (λ n. VerdictOn n words.now result.verdict) }
{
    let solution = solve_set(names, words, res, work);
    let verdict = verdict_on(names, words, solution, res, work);
    Confirmed { solution, verdict }
}
