// Reads the listed sheets, writes what was read, and compares the answers and what each buffer holds afterwards with what is stored.
#![tactic(auto)]

mod case;

use anyhow::{Result, ensure};
use case::{Case, Expected, Given};
use names::enter;
use rules::Was;
use std::alloc::Global;
use std::io;
use text::{TEXT_BYTES, read_text, write_text};
use text_sheet::{NotRead, Read};

/// What the words of the result buffer are before a call.
const RESULT_BEFORE: u32 = 0xaaaaaaaa;

/// What the words of the work buffer are before a call.
const WORK_BEFORE: u32 = 0x55555555;

/// A name table, as much of it as is lent.
#[derive(Drop, PartialEq)]
struct Table {
    pool: Vec<u8>,
    ends: Vec<u32>,
}

impl Table {
    /// With the names of a case and these new ones, and its first word spoilt where that is asked for.
    fn new(alloc: Global, case: &Case, new: &[Vec<u8>]) -> Result<Table> {
        let mut pool = vec![in alloc; 0; 8200]?;
        let mut ends = vec![in alloc; 0; 260]?;
        for name in case.names.iter().chain(new.iter()) {
            let entered = enter(&mut pool, &mut ends, name);
            ensure!(matches!(entered, Ok((_, Was::New))), "a name is not new");
        }
        pool.truncate(case.lent.pool);
        ends.truncate(case.lent.table);
        if case.lent.spoil != 0 && !ends.is_empty() {
            ends[0] = case.lent.spoil;
        }
        Ok(Table { pool, ends })
    }
}

/// Does a buffer begin with these words, and is it as before behind them?
fn begins(buffer: &[u32], words: &[u32]) -> bool {
    buffer.starts_with(words) && buffer.iter().skip(words.len()).all(|w| *w == RESULT_BEFORE)
}

/// Does an answer tell what is stored?
fn tells(answer: &std::result::Result<Read, NotRead>, expected: &Expected) -> bool {
    match (answer, expected) {
        (Ok(read), Expected::Read(given)) => {
            (read.records, read.constraints, read.names)
                == (given.records, given.constraints, given.fresh)
        }
        (Err(stop), Expected::Refused(number, line, column)) => {
            (stop.why.number(), stop.line, stop.column) == (*number, *line, *column)
        }
        (Ok(_), Expected::Refused(..)) | (Err(_), Expected::Read(_)) => false,
    }
}

/// Does the call answer, and leave all that is lent, as stored?
fn holds(alloc: Global, case: &Case) -> Result<bool> {
    let mut table = Table::new(alloc, case, &[])?;
    let mut result = vec![in alloc; RESULT_BEFORE; case.lent.result]?;
    let mut work = vec![in alloc; WORK_BEFORE; case.lent.work]?;
    let answer = read_text(
        &mut table.pool,
        &mut table.ends,
        &case.text,
        &mut result,
        &mut work,
    );
    if !tells(&answer, &case.expected) {
        return Ok(false);
    }
    match &case.expected {
        Expected::Read(given) => Ok(
            table == Table::new(alloc, case, &given.new)?
                && begins(&result, &given.words)
                && work.iter().all(|w| *w == 0)
                && written_holds(alloc, given, &table)?,
        ),
        Expected::Refused(number, ..) => {
            let after = if *number == 10 { WORK_BEFORE } else { 0 };
            Ok(
                table == Table::new(alloc, case, &[])?
                    && begins(&result, &[])
                    && work.iter().all(|w| *w == after),
            )
        }
    }
}

/// Is a set that was read written as stored?
fn written_holds(alloc: Global, given: &Given, table: &Table) -> Result<bool> {
    let mut written = vec![in alloc; 0; TEXT_BYTES]?;
    Ok(
        match write_text(&table.pool, &table.ends, &given.words, &mut written) {
            Ok(n) => written.as_slice().get(..n) == Some(given.back.as_slice()),
            Err(_) => false,
        },
    )
}

fn main(rt: HostRuntime) -> Result<()> {
    let alloc = rt.alloc();
    let list = io::read_to_string(alloc, rt.reader())?;
    let mut lines = list.lines();
    let mut count = 0u32;
    let mut right = 0u32;
    while let Some(about) = lines.next() {
        if !about.starts_with('#') {
            continue;
        }
        count = count.saturating_add(1);
        if holds(alloc, &Case::read(alloc, &mut lines)?)? {
            right = right.saturating_add(1);
        } else {
            println!(rt; "{about}")?;
        }
    }
    println!(rt; "sheets: {count} cases, {right} as stored")?;
    Ok(())
}
