//! The answers of the calls that `calls_defined` does not tell.
ghost use Rattle.std.specs.Prelude.{◌≡◌};
ghost use Rattle.engine.specs.Told.{toldEliminated};
ghost use Rattle.rescue.specs.Told.{countsOf};
ghost use Rattle.text_sheet.specs.Given.{toldSheet};
ghost use Rattle.library_words.specs.Words.{countAs, countsAs, eliminatedAs, counts, sheetAs};
ghost use Rattle.rules.specs.Base.{got};
ghost use Rattle.rules.specs.Refusals.{told, toldBy};
ghost use Rattle.rules.specs.Elimination.{someLeft};

use calls_defined::told::{Told, refused, said, short};
use engine::Eliminated;
use rescue::Counts;
use rules::Refusal;
use text_sheet::{NotRead, Read};

fn remaining(n: usize) -> Told
    ensures { result ≡ eliminatedAs (someLeft n) }
{
    Told {
        refusal: Refusal::Unsolved.number(),
        value: short(n),
        more: 0,
        rounds: 0,
        words: 0,
    }
}

/// How many records of bindings the second engine wrote; on 5 how many records remain.
pub fn eliminated(a: Result<Eliminated, Refusal>) -> Told
    ensures { result ≡ eliminatedAs (toldEliminated a) }
{
    match a {
        Ok(Eliminated::Bound(n)) => said(short(n), 0, 0),
        Ok(Eliminated::Left(n)) => remaining(n),
        Err(why) => refused(why, 0, 0),
    }
}

fn both(c: Counts) -> Told
    ensures { result ≡ countsAs (got (c.kept, c.skipped)) }
{
    said(short(c.kept), short(c.skipped), 0)
}

/// How many records a rescue kept, and how many places it skipped.
pub fn rescued(a: Result<Counts, Refusal>) -> Told
    ensures { result ≡ countsAs (toldBy countsOf a) }
{
    match a {
        Ok(c) => both(c),
        Err(why) => refused(why, 0, 0),
    }
}

/// What a call counts: the names that a compaction kept, the bytes of a text.
pub fn amount(a: Result<usize, Refusal>) -> Told
    ensures { result ≡ countAs (told a) }
{
    match a {
        Ok(n) => said(short(n), 0, 0),
        Err(why) => refused(why, 0, 0),
    }
}

fn three(refusal: u32, value: usize, more: usize, rounds: usize) -> Told
    ensures { result ≡ counts refusal value more rounds }
{
    Told {
        refusal,
        value: short(value),
        more: short(more),
        rounds: short(rounds),
        words: 0,
    }
}

/// How many records, constraints and new names a sheet has; on a refusal its line and column, counted from 1.
pub fn sheet(s: Result<Read, NotRead>) -> Told
    ensures { result ≡ sheetAs (toldSheet s) }
{
    match s {
        Ok(read) => three(0, read.records, read.constraints, read.names),
        Err(stop) => three(stop.why.number(), stop.line, stop.column, 0),
    }
}
