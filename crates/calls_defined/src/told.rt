//! What a call says, in words: `calls_defined/specs/Saying` has each answer as one definition.
ghost use Rattle.std.specs.Prelude.{◌≡◌};
ghost use Rattle.rules.specs.Refusals.{number_of, told, toldBy};
ghost use Rattle.exponents.specs.Answers.{expOf};
ghost use Rattle.names.specs.Told.{toldOrder};
ghost use Rattle.solve_add.specs.Told.{counted};
ghost use Rattle.solve.specs.Told as solving;
ghost use Rattle.solve_ceiling.specs.Told.{toldMost};
ghost use Rattle.rules.specs.Calls.{solved, unsolved};
ghost use Rattle.calls_defined.specs.Saying.{word, fours, sum, saidAs, refusedAs, checkedAs, askedAs, numberAs};
ghost use Rattle.calls_defined.specs.Saying.{powerAs, orderAs, countedAs, writtenAs, addedAs, solvedAs, wasWord, mostAs, ceilingAs, batchedAs};

use exponents::Exponent;
use rules::{Refusal, Was};
use solve::{Finish, Solution};
use solve_ceiling::Most;
use std::cmp::Ordering;

/// The refusal's number or 0, what the call says, completed rounds, and how many words at the front of the result buffer are the answer's.
#[derive(Clone, Copy)]
pub struct Told {
    pub refusal: u32,
    pub value: u32,
    pub more: u32,
    pub rounds: u32,
    pub words: usize,
}

/// A count as a word: its low 32 bits.
pub fn short(n: usize) -> u32
    ensures { result ≡ word n }
{
    (n % 4294967296) as u32
}

// Four words a record. No count here is near the bound.
fn words_of(records: usize) -> usize
    ensures { result ≡ fours records }
{
    if records < 1000000000 { records * 4 } else { 0 }
}

/// An answer: a value, a second value, and so many words at the front of the result buffer.
pub fn said(value: u32, more: u32, words: usize) -> Told
    ensures { result ≡ saidAs value more words }
{
    Told {
        refusal: 0,
        value,
        more,
        rounds: 0,
        words,
    }
}

/// A refusal after so many rounds, with so many words before it.
pub fn refused(why: Refusal, rounds: u32, words: usize) -> Told
    ensures { result ≡ refusedAs (number_of why) rounds words }
{
    Told {
        refusal: why.number(),
        value: 0,
        more: 0,
        rounds,
        words,
    }
}

/// Of a check that passes nothing is said.
pub fn checked(c: Result<(), Refusal>) -> Told
    ensures { result ≡ checkedAs (told c) }
{
    match c {
        Ok(()) => said(0, 0, 0),
        Err(why) => refused(why, 0, 0),
    }
}

/// No 0, yes 1; the judge's too.
#[tactic(auto, using(laws::proofs::Numbers::yes_counts))]
pub fn asked(a: Result<bool, Refusal>) -> Told
    ensures { result ≡ askedAs (told a) }
{
    match a {
        Ok(b) => said(u32::from(b), 0, 0),
        Err(why) => refused(why, 0, 0),
    }
}

fn was_word(was: Was) -> u32
    ensures { result ≡ wasWord was }
{
    match was {
        Was::New => 1,
        Was::Known => 0,
    }
}

/// The number of a name that was entered, with 1 for new and 0 for known; so many words say what that changed.
pub fn numbered(a: Result<(u32, Was), Refusal>, words: usize) -> Told
    ensures { result ≡ numberAs (told a) words }
{
    match a {
        Ok((n, was)) => said(n, was_word(was), words),
        Err(why) => refused(why, 0, words),
    }
}

/// An exponent: its numerator as a word in two's complement, and its denominator.
pub fn powered(p: Result<Exponent, Refusal>) -> Told
    ensures { result ≡ powerAs (toldBy expOf p) }
{
    match p {
        Ok(e) => said(e.num_word(), e.den, 0),
        Err(why) => refused(why, 0, 0),
    }
}

/// Less 1, same 2, more 3.
pub fn ordered(o: Ordering) -> Told
    ensures { result ≡ orderAs (toldOrder o) }
{
    match o {
        Ordering::Less => said(1, 0, 0),
        Ordering::Equal => said(2, 0, 0),
        Ordering::Greater => said(3, 0, 0),
    }
}

/// How many names were written, a word each.
pub fn counted(c: Result<usize, Refusal>) -> Told
    ensures { result ≡ countedAs (told c) }
{
    match c {
        Ok(n) => said(short(n), 0, n),
        Err(why) => refused(why, 0, 0),
    }
}

/// How many records were written, four words each.
pub fn written(a: Result<usize, Refusal>) -> Told
    ensures { result ≡ writtenAs (told a) }
{
    match a {
        Ok(n) => said(short(n), 0, words_of(n)),
        Err(why) => refused(why, 0, 0),
    }
}

/// Satisfied 1, Violated 2, Unknown 3, and the records of the set then. On a refusal the words of the set stay at the front.
pub fn added(a: Result<(solve_add::Verdict, usize), Refusal>, words: usize) -> Told
    ensures { result ≡ addedAs (toldBy counted a) words }
{
    match a {
        Ok((solve_add::Verdict::Satisfied, n)) => said(1, short(n), words_of(n)),
        Ok((solve_add::Verdict::Violated, n)) => said(2, short(n), words_of(n)),
        Ok((solve_add::Verdict::Unknown, n)) => said(3, short(n), words_of(n)),
        Err(why) => refused(why, 0, words),
    }
}

// The records of bindings and of bounds together; they are few.
fn both(b: usize, n: usize) -> usize
    ensures { result ≡ sum b n }
{
    std::num::wrapping_add_u64(b as u64, n as u64) as usize
}

fn accepted(b: usize, n: usize, rounds: u32) -> Told
    ensures { result ≡ solvedAs (solved b n rounds) }
{
    Told {
        refusal: 0,
        value: short(b),
        more: short(n),
        rounds,
        words: words_of(both(b, n)),
    }
}

fn remaining(n: usize, rounds: u32) -> Told
    ensures { result ≡ solvedAs (unsolved n rounds) }
{
    Told {
        refusal: Refusal::Unsolved.number(),
        value: short(n),
        more: 0,
        rounds,
        words: words_of(n),
    }
}

/// The records of bindings and of bounds, or of what remains (5), and the completed rounds.
pub fn solution(s: Solution) -> Told
    ensures { result ≡ solvedAs (solving.toldSolution s) }
{
    let rounds = s.rounds;
    match s.outcome {
        Ok(Finish::Solved(b, n)) => accepted(b, n, rounds),
        Ok(Finish::Unsolved(n)) => remaining(n, rounds),
        Err(why) => refused(why, rounds, 0),
    }
}

fn most(m: Most) -> Told
    ensures { result ≡ mostAs (toldMost m) }
{
    said(m.variables, m.rounds, 0)
}

/// Distinct variables, and the ceiling on rounds.
pub fn limited(a: Result<Most, Refusal>) -> Told
    ensures { result ≡ ceilingAs (toldBy toldMost a) }
{
    match a {
        Ok(m) => most(m),
        Err(why) => refused(why, 0, 0),
    }
}

/// How many records there are of all sets together, behind so many words of their answers.
pub fn batched(a: Result<usize, Refusal>, answers: usize) -> Told
    ensures { result ≡ batchedAs (told a) answers }
{
    match a {
        Ok(n) => said(short(n), 0, both(answers, words_of(n))),
        Err(why) => refused(why, 0, 0),
    }
}
