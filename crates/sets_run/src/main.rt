//! Runs both engines on the listed sets and on generated ones, and compares what they answer and all that the buffers hold afterwards; and asks of listed sets
//! which lines conflict.
#![tactic(auto)]

mod conflicts;
mod engines;
mod sets;

use anyhow::{Context, Result};
use conflicts::conflicts_as;
use engines::{Outcome, RESULT_BEFORE, eliminated, solved};
use sets::{Table, numbers, two_lines};
use std::alloc::Global;
use std::io;

/// How many sets are generated: two lines of three factors, each power one of five.
const GENERATED: u32 = 15625;

/// How both engines' outcomes compare: all alike; or the second answers 8 alone, since the set doesn't fit it.
#[derive(Clone, Copy, PartialEq, Eq)]
enum Seen {
    Alike,
    Unfit,
    Differ,
}

/// How many sets were run, and how many of them came out as they must.
#[derive(Clone, Copy)]
struct Tally {
    sets: u32,
    right: u32,
}

impl Tally {
    /// One set more.
    fn with(self, right: bool) -> Tally {
        Tally {
            sets: self.sets.saturating_add(1),
            right: self.right.saturating_add(right as u32),
        }
    }
}

fn compared(solver: &Outcome, second: &Outcome) -> Seen {
    if solver == second {
        Seen::Alike
    } else if second.number == 8
        && solver.number != 8
        && solver.work == second.work
        && second.result.iter().all(|w| *w == RESULT_BEFORE)
    {
        Seen::Unfit
    } else {
        Seen::Differ
    }
}

/// Both engines on a set, each with buffers of its own.
fn both(alloc: Global, table: &Table, words: &[u32]) -> Result<Seen> {
    let solver = solved(alloc, table, words)?;
    let second = eliminated(alloc, table, words)?;
    Ok(compared(&solver, &second))
}

/// A line's set, behind what must come out of it: both engines `alike`; `unfit`, for the second alone; `conflict` and the places of the lines, none of them
/// where no lines do.
fn as_listed(alloc: Global, table: &Table, line: &str) -> Result<bool> {
    let (expected, words) = line.split_once(':').context("no set")?;
    let words = numbers(alloc, words)?;
    match expected {
        "alike" => Ok(both(alloc, table, &words)? == Seen::Alike),
        "unfit" => Ok(both(alloc, table, &words)? == Seen::Unfit),
        _ => {
            let places = expected
                .strip_prefix("conflict")
                .context("no such outcome")?;
            conflicts_as(alloc, table, &numbers(alloc, places)?, &words)
        }
    }
}

/// Writes how many sets were run.
fn report(rt: &impl Print, what: &str, tally: Tally) -> io::Result<()> {
    println!(rt;
        "{what}: {} sets, {} as they must be",
        tally.sets, tally.right
    )
}

fn main(rt: HostRuntime) -> Result<()> {
    let alloc = rt.alloc();
    let table = Table::new(alloc)?;
    let list = io::read_to_string(alloc, rt.reader())?;
    let mut lines = list.lines();
    let mut listed = Tally { sets: 0, right: 0 };
    while let Some(about) = lines.next() {
        let right = as_listed(alloc, &table, lines.next().context("a set is missing")?)?;
        if !right {
            println!(rt; "{about}")?;
        }
        listed = listed.with(right);
    }
    report(&rt, "listed", listed)?;
    let mut generated = Tally { sets: 0, right: 0 };
    for n in 0..GENERATED {
        let seen = both(alloc, &table, &two_lines(n))?;
        generated = generated.with(seen == Seen::Alike);
    }
    report(&rt, "generated", generated)?;
    Ok(())
}
