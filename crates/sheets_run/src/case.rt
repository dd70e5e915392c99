// A stored case: a name table, what is lent, a text, and what must be answered and left behind.
ghost use Rattle.std.specs.Prelude.{◌≤◌, length};

use anyhow::{Context, Result, bail, ensure};
use std::alloc::Global;
use std::str::Lines;
use std::vec;

/// How much is lent of the four buffers, and what the table's first word becomes, if not 0.
#[derive(Clone, Copy)]
pub struct Lent {
    pub pool: usize,
    pub table: usize,
    pub result: usize,
    pub work: usize,
    pub spoil: u32,
}

/// What a sheet that is read gives: its answer, its new names, its records, and the text that is written from these.
#[derive(Drop)]
pub struct Given {
    pub records: usize,
    pub constraints: usize,
    pub fresh: usize,
    pub new: Vec<Vec<u8>>,
    pub words: Vec<u32>,
    pub back: Vec<u8>,
}

#[derive(Drop)]
pub enum Expected {
    Read(Given),
    Refused(u32, usize, usize),
}

#[derive(Drop)]
pub struct Case {
    pub names: Vec<Vec<u8>>,
    pub lent: Lent,
    pub text: Vec<u8>,
    pub expected: Expected,
}

/// The numbers behind a line's first word, which must be this one.
fn numbers(alloc: Global, line: Option<&str>, first: &str) -> Result<Vec<u32>> {
    let line = line.context("a line is missing")?;
    let mut words = line.split(' ');
    ensure!(words.next() == Some(first), "no {first}");
    let mut all = Vec::new(alloc);
    for word in words {
        all.push(word.parse().context("no number")?)?;
    }
    Ok(all)
}

fn next(numbers: &mut vec::IntoIter<u32>) -> Result<u32> {
    numbers.next().context("a number is missing")
}

/// How many names, and of each its length and bytes.
fn names(alloc: Global, numbers: Vec<u32>) -> Result<Vec<Vec<u8>>> {
    let mut numbers = numbers.into_iter();
    let mut all = Vec::new(alloc);
    for _ in 0..next(&mut numbers)? {
        let mut name = Vec::new(alloc);
        for _ in 0..next(&mut numbers)? {
            name.push(next(&mut numbers)?.to_le_bytes()[0])?;
        }
        all.push(name)?;
    }
    Ok(all)
}

/// Runs: how often, how many words, and these.
fn runs(alloc: Global, numbers: Vec<u32>) -> Result<Vec<u32>> {
    let mut all = Vec::new(alloc);
    let mut rest = numbers.as_slice();
    while let [times, count, after @ ..] = rest {
        let (run, behind) = after
            .split_at_checked(*count as usize)
            .context("a run is short")?;
        for _ in 0..*times {
            all.extend_from_slice(run)?;
        }
        rest = behind;
    }
    Ok(all)
}

fn bytes(alloc: Global, words: &[u32]) -> Result<Vec<u8>> {
    let mut all = Vec::with_capacity(alloc, words.len())?;
    for w in words {
        all.push(w.to_le_bytes()[0])?;
    }
    Ok(all)
}

impl Expected {
    /// The answer on the next line; where the sheet is read, three more lines have what it leaves.
    fn read(alloc: Global, lines: &mut Lines) -> Result<Expected>
        ensures onward { length lines.new.rest.now ≤ length lines.old.rest.now }
    {
        let [refusal, a, b, c] = *numbers(alloc, lines.next(), "gives")?.as_slice() else {
            bail!("gives has four numbers");
        };
        if refusal != 0 {
            return Ok(Expected::Refused(refusal, a as usize, b as usize));
        }
        Ok(Expected::Read(Given {
            records: a as usize,
            constraints: b as usize,
            fresh: c as usize,
            new: names(alloc, numbers(alloc, lines.next(), "new")?)?,
            words: runs(alloc, numbers(alloc, lines.next(), "words")?)?,
            back: bytes(alloc, &runs(alloc, numbers(alloc, lines.next(), "back")?)?)?,
        }))
    }
}

impl Case {
    /// The case on the next lines.
    pub fn read(alloc: Global, lines: &mut Lines) -> Result<Case>
        ensures onward { length lines.new.rest.now ≤ length lines.old.rest.now }
    {
        let names = names(alloc, numbers(alloc, lines.next(), "case")?)?;
        let [pool, table, result, work, spoil] = *numbers(alloc, lines.next(), "lent")?.as_slice()
        else {
            bail!("lent has five numbers");
        };
        Ok(Case {
            names,
            lent: Lent {
                pool: pool as usize,
                table: table as usize,
                result: result as usize,
                work: work as usize,
                spoil,
            },
            text: bytes(alloc, &runs(alloc, numbers(alloc, lines.next(), "text")?)?)?,
            expected: Expected::read(alloc, lines)?,
        })
    }
}
