//! The steps of solving, past the check of 10.
ghost use Rattle.std.specs.Prelude.{◌≡◌, List, ℕ, ◌≤◌, length};
ghost use Rattle.rules.specs.Base.{got, bounded};
ghost use Rattle.rules.specs.Batches.{recordsOf};
ghost use Rattle.rules.specs.Calls.{solvedSet};
ghost use Rattle.rules.specs.Solving.{solve};
ghost use Rattle.rules.specs.Trees.{Con};
ghost use Rattle.records.specs.Good.{numbers};
ghost use Rattle.theorems_ending.specs.Counted.{start};
ghost use Rattle.solve_round.specs.States.{Placed};
ghost use Rattle.solve.specs.Told.{toldSolution, refusedAs, Answered};
ghost use Rattle.solve.specs.Running.{Begun};
ghost use Rattle.types.specs.Given.{call_over};

use super::Solution;
use names::tables::NameTable;
use records::inner::copy;
use rules::{RECORD_WORDS, Refusal};
use solve_finish::Finish;
use solve_finish::inner::finish;
use solve_round::inner::round;
use solve_round::{After, Ends, Place};
use std::mem::swap;
use types::GivenSet;

/// Why there is no answer.
pub fn stopped(r: Refusal, completed: u32) -> Solution
    ensures { result ≡ refusedAs r completed }
{
    Solution {
        outcome: Err(r),
        rounds: completed,
    }
}

/// How many records an answer has at the front of the result buffer.
pub fn records(s: Solution) -> usize
    requires { recordsOf (toldSolution s) ≤ 2048 }
    ensures { result ≡ recordsOf (toldSolution s) }
{
    match s.outcome {
        Ok(Finish::Solved(b, n)) => b + n,
        Ok(Finish::Unsolved(n)) => n,
        Err(_) => 0,
    }
}

/// The set is copied to where the first round reads it.
fn begin(set: &[u32], state: &mut [u32]) -> Place
    requires short { length set.now ≤ 8192 }
    requires room { 8192 ≤ length state.old }
    ensures { (pool table : List ℕ) (cs : List (Con ℕ)) → Begun pool table set.now cs → Placed pool table state.new result (start cs) }
{
    let n = set.len() / 4;
    copy(set, 0, n, state, 0);
    let ends = Ends {
        constraints: n,
        bindings: n,
    };
    Place {
        start: 0,
        stuck: 0,
        ends,
    }
}

/// Round after round on the constraints of a set, and what is answered at the end. A round leaves the state where it is, or writes the next one to one half of
/// the work buffer while it reads the other, and then the halves change places.
pub fn run(names: NameTable, set: &[u32], res: &mut [u32], work: &mut [u32]) -> Solution
    requires begun { (cs : List (Con ℕ)) × Begun names.pool.now names.table.now set.now cs }
    requires result_room { 8192 ≤ length res.old }
    requires room { 16384 ≤ length work.old }
    ensures { (cs : List (Con ℕ)) → Begun names.entry.pool.now names.entry.table.now set.now cs
        → Answered (got (solve (numbers names.entry.pool.now names.entry.table.now) bounded cs)) res.old res.new result }
{
    let mut new = [0u32; RECORD_WORDS];
    let (mut state, behind) = work.split_at_mut(RECORD_WORDS);
    let (mut next, _) = behind.split_at_mut(RECORD_WORDS);
    let mut place = begin(set, state);
    let mut rounds = 0;
    'turns: loop {
        match round(names, state, place, &mut new, next) {
            Ok(After::Read(left)) => {
                place = left;
                rounds += 1;
            }
            Ok(After::Written(made)) => {
                place = made;
                rounds += 1;
                swap(&mut state, &mut next);
            }
            Ok(After::Nowhere) => {
                let outcome = Ok(finish(names, state, place, res));
                return Solution { outcome, rounds };
            }
            Err(r) => return stopped(r, rounds),
        }
    }
}

/// All that solving does past the check of 10, except for clearing the work buffer.
pub fn solve_set(
    names: Result<NameTable, Refusal>,
    words: &[u32],
    res: &mut [u32],
    work: &mut [u32],
) -> Solution
    requires result_room { 8192 ≤ length res.old }
    requires room { 16384 ≤ length work.old }
    ensures { Answered (call_over names.entry solvedSet words.now) res.old res.new result }
{
    match GivenSet::apart(names, words) {
        Ok(set) => run(set.names, words, res, work),
        Err(r) => stopped(r, 0),
    }
}
