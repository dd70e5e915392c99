// A stored case: a name table, a call with its lists, how much is lent, and what must be answered.
ghost use Rattle.std.specs.Prelude.{◌≤◌, length};

use anyhow::{Context, Result, bail, ensure};
use calls_defined::Asked;
use calls_defined::numbers::Call;
use names::enter;
use rules::Was;
use std::alloc::Global;
use std::str::Lines;

/// A name table, as much of it as is lent.
#[derive(Drop)]
pub struct Table {
    pub pool: Vec<u8>,
    pub ends: Vec<u32>,
}

/// The refusal's number or 0, two values, the completed rounds, and the words at the front of the result buffer.
#[derive(Drop)]
pub struct Gives {
    pub refusal: u32,
    pub value: u32,
    pub more: u32,
    pub rounds: u32,
    pub words: Vec<u32>,
}

/// How much is lent: bytes of the pool, words of the table and of both buffers.
#[derive(Clone, Copy)]
pub struct Lent {
    pub pool: usize,
    pub table: usize,
    pub result: usize,
    pub work: usize,
}

/// The lists of a call.
#[derive(Drop)]
pub struct Words {
    pub first: Vec<u32>,
    pub second: Vec<u32>,
    pub third: Vec<u32>,
    pub fourth: Vec<u32>,
}

#[derive(Drop)]
pub struct Case {
    pub table: Table,
    pub call: Call,
    pub asked: Asked,
    pub lent: Lent,
    pub words: Words,
    pub gives: Gives,
}

impl Table {
    /// These names are entered in their order, and so numbered from 0; so much of pool and table is lent.
    fn new(alloc: Global, names: &str, lent: Lent) -> Result<Table> {
        let mut pool = vec![in alloc; 0; 8200]?;
        let mut ends = vec![in alloc; 0; 260]?;
        for (i, name) in names.split_whitespace().enumerate() {
            let entered = enter(&mut pool, &mut ends, name.as_bytes());
            ensure!(
                matches!(entered, Ok((number, Was::New)) if number as usize == i),
                "{name} is not new"
            );
        }
        pool.truncate(lent.pool);
        ends.truncate(lent.table);
        Ok(Table { pool, ends })
    }
}

/// What stands behind a line's first word, which must be this one.
fn behind<'a>(line: Option<&'a str>, first: &str) -> Result<&'a str> {
    line.and_then(|line| line.strip_prefix(first))
        .context(format_args!("no line with {first}"))
}

fn numbers(alloc: Global, text: &str) -> Result<Vec<u32>> {
    let mut all = Vec::new(alloc);
    for word in text.split_whitespace() {
        all.push(word.parse().context("no number")?)?;
    }
    Ok(all)
}

/// A list: how many words, a colon, and these. Where fewer stand there, the last four are repeated.
fn list(alloc: Global, text: &str) -> Result<Vec<u32>> {
    let (count, words) = text.split_once(':').context("no list")?;
    let count: usize = count.trim_start().parse().context("no length")?;
    let mut all = numbers(alloc, words)?;
    let missing = count.saturating_sub(all.len());
    if missing != 0 {
        let [.., a, b, c, d] = *all.as_slice() else {
            bail!("a list is short");
        };
        let record = [a, b, c, d];
        for i in 0..missing {
            all.push(record[i % 4])?;
        }
    }
    Ok(all)
}

impl Gives {
    fn read(alloc: Global, text: &str) -> Result<Gives> {
        let (told, words) = text.split_once(',').context("gives has a list")?;
        let [refusal, value, more, rounds] = *numbers(alloc, told)?.as_slice() else {
            bail!("gives has four numbers");
        };
        Ok(Gives {
            refusal,
            value,
            more,
            rounds,
            words: list(alloc, words)?,
        })
    }
}

/// The call with the two words beside its lists, and how much is lent.
fn asks(alloc: Global, text: &str) -> Result<(Call, Asked, Lent)> {
    let (asks, lent) = text.split_once("lent").context("asks has a lent")?;
    let [call, x, y] = *numbers(alloc, asks)?.as_slice() else {
        bail!("asks has three numbers");
    };
    let [pool, table, result, work] = *numbers(alloc, lent)?.as_slice() else {
        bail!("lent has four numbers");
    };
    let lent = Lent {
        pool: pool as usize,
        table: table as usize,
        result: result as usize,
        work: work as usize,
    };
    let call = Call::from_number(call).context("no call has this number")?;
    Ok((call, Asked { x, y }, lent))
}

impl Words {
    /// The lists on the next lines.
    fn read(alloc: Global, lines: &mut Lines) -> Result<Words>
        ensures onward { length lines.new.rest.now ≤ length lines.old.rest.now }
    {
        Ok(Words {
            first: list(alloc, behind(lines.next(), "first")?)?,
            second: list(alloc, behind(lines.next(), "second")?)?,
            third: list(alloc, behind(lines.next(), "third")?)?,
            fourth: list(alloc, behind(lines.next(), "fourth")?)?,
        })
    }
}

impl Case {
    /// The case on the next lines.
    pub fn read(alloc: Global, lines: &mut Lines) -> Result<Case>
        ensures onward { length lines.new.rest.now ≤ length lines.old.rest.now }
    {
        let names = behind(lines.next(), "case")?;
        let (call, asked, lent) = asks(alloc, behind(lines.next(), "asks")?)?;
        Ok(Case {
            table: Table::new(alloc, names, lent)?,
            call,
            asked,
            lent,
            words: Words::read(alloc, lines)?,
            gives: Gives::read(alloc, behind(lines.next(), "gives")?)?,
        })
    }
}
