// The steps of a batch.
ghost use Rattle.std.specs.Prelude.{◌≡◌, ◌≤◌, ◌<◌, length};
ghost use Rattle.rules.specs.Base.{need, sum_of};
ghost use Rattle.rules.specs.Calls.{solvedSet};
ghost use Rattle.solve.specs.Told.{toldSolution};
ghost use Rattle.rules.specs.Refusals.{told};
ghost use Rattle.rules.specs.Batches.{batchLent, batchFits, fourWords, recordsOf};
ghost use Rattle.solve_batch.specs.Steps.{Begun, Finished};
ghost use Rattle.types.specs.Given.{call_over};

use names::tables::NameTable;
use rules::{POOL_BYTES, RECORD_WORDS, Refusal, TABLE_WORDS, WORK_WORDS};
use solve::inner::{records, solve_set};
use solve::{Finish, Solution};

/// How many sets one call takes.
pub const SETS: usize = 64;

/// Is everything that is lent long enough for so many sets? A quotient, since a product could pass 64 bits.
pub fn all_lent(
    pool: &[u8],
    table: &[u32],
    lengths: &[u32],
    res: &[u32],
    answers: &[u32],
    work: &[u32],
) -> bool
    ensures { need result 10 ≡ batchLent pool.now table.now lengths.now res.now answers.now work.now }
{
    if pool.len() < POOL_BYTES {
        return false;
    }
    if table.len() < TABLE_WORDS {
        return false;
    }
    if res.len() / RECORD_WORDS < lengths.len() {
        return false;
    }
    if answers.len() / 4 < lengths.len() {
        return false;
    }
    WORK_WORDS <= work.len()
}

// The sum of all lengths, each of 32 bits: it can't pass 64.
fn total(lengths: &[u32]) -> usize
    requires { length lengths.now ≤ 64 }
    ensures { (result ≡ sum_of (λ n. n) lengths.now) × (result < 274877906944) }
{
    let mut sum: usize = 0;
    for n in lengths {
        sum += *n as usize;
    }
    sum
}

/// At most 64 sets (8), whose lengths add up to the list (1).
pub fn fits(sets: &[u32], lengths: &[u32]) -> Result<(), Refusal>
    ensures { told result ≡ batchFits sets.now lengths.now }
{
    if SETS < lengths.len() {
        return Err(Refusal::TooLarge);
    }
    if total(lengths) * 4 == sets.len() {
        Ok(())
    } else {
        Err(Refusal::Malformed)
    }
}

// What is told of a set: the refusal or 0, the completed rounds, the records of bindings or of what remains, the records of bounds.
fn four_words(s: Solution) -> [u32; 4]
    requires { recordsOf (toldSolution s) ≤ 2048 }
    ensures { result ≡ fourWords (toldSolution s) }
{
    let k = s.rounds;
    match s.outcome {
        Ok(Finish::Solved(b, n)) => [0, k, b as u32, n as u32],
        Ok(Finish::Unsolved(n)) => [Refusal::Unsolved.number(), k, n as u32, 0],
        Err(r) => [r.number(), k, 0, 0],
    }
}

/// Solves each set; how many records were written. Just the room of one answer is lent on for each.
pub fn solve_each(
    names: Result<NameTable, Refusal>,
    sets: &[u32],
    lengths: &[u32],
    res: &mut [u32],
    answers: &mut [u32],
    work: &mut [u32],
) -> usize
    requires begun { Begun sets.now lengths.now res.old answers.old work.old }
    ensures { Finished (call_over names.entry solvedSet) sets.now lengths.now res.old res.new answers.old answers.new result }
{
    let mut from = 0;
    let mut out = 0;
    'sets: for i in 0..lengths.len() {
        let to = from + lengths[i] as usize * 4;
        let at = out * 4;
        let end = at + RECORD_WORDS;
        let s = solve_set(names, &sets[from..to], &mut res[at..end], work);
        let told = i * 4;
        answers[told..told + 4].copy_from_slice(&four_words(s));
        out += records(s);
        from = to;
    }
    out
}
