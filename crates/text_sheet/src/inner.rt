//! Line after line, until one is refused; then pool and table are put back.
ghost use Rattle.std.specs.Prelude.{◌≤◌, length};
ghost use Rattle.laws.specs.NameTable.{Good};
ghost use Rattle.text_sheet.specs.Given.{Answers};
ghost use Rattle.text_sheet.specs.Loop.{Reads, AllOrNothing};

use super::{NotRead, Read};
use names::inner::is_good;
use records::inner::copy;
use rules::{POOL_BYTES, Refusal, TABLE_WORDS};
use text_columns::inner::line_end;
use text_lines::inner::read_line;
use text_names::inner::Tally;

/// Reads line after line, until one is refused. Records go to the front of a buffer.
fn read_lines(
    text: &[u8],
    pool: &mut [u8],
    table: &mut [u32],
    dst: &mut [u32],
) -> Result<Read, NotRead>
    requires { Good pool.old table.old }
    ensures { Reads text.now pool.old table.old dst.old pool.new table.new dst.new result }
{
    let mut at = 0;
    let mut lines = 0;
    let mut tally = Tally {
        names: 0,
        records: 0,
    };
    let mut constraints = 0;
    loop {
        let end = line_end(text, at);
        match read_line(&text[at..end], tally, pool, table, dst) {
            Ok(line) => {
                tally = line.tally;
                constraints += line.constraints;
            }
            Err(stop) => {
                let (why, line, column) = (stop.why, lines + 1, stop.at + 1);
                return Err(NotRead { why, line, column });
            }
        }
        if end == text.len() {
            return Ok(Read {
                records: tally.records,
                constraints,
                names: tally.names,
            });
        }
        at = end + 1;
        lines += 1;
    }
}

/// Reads a sheet: all of it, or nothing. What pool and table were is held, and put back if a line is refused.
pub fn read_sheet(
    text: &[u8],
    pool: &mut [u8],
    table: &mut [u32],
    dst: &mut [u32],
) -> Result<Read, NotRead>
    requires { Good pool.old table.old }
    ensures { AllOrNothing text.now pool.old table.old dst.old pool.new table.new dst.new result }
{
    let mut bytes = [0u8; POOL_BYTES];
    bytes.copy_from_slice(&pool[..POOL_BYTES]);
    let mut ends = [0u32; TABLE_WORDS];
    ends.copy_from_slice(&table[..TABLE_WORDS]);
    match read_lines(text, pool, table, dst) {
        Ok(read) => Ok(read),
        Err(stop) => {
            pool[..POOL_BYTES].copy_from_slice(&bytes);
            table[..TABLE_WORDS].copy_from_slice(&ends);
            Err(stop)
        }
    }
}

/// Reads a sheet whose buffers are long enough: 1 for the table, then its lines. Its records go through the work buffer to the result.
pub fn read_given(
    pool: &mut [u8],
    table: &mut [u32],
    text: &[u8],
    res: &mut [u32],
    work: &mut [u32],
) -> Result<Read, NotRead>
    requires pool_long { 8192 ≤ length pool.old }
    requires table_long { 257 ≤ length table.old }
    requires result_long { 8192 ≤ length res.old }
    requires work_long { 8192 ≤ length work.old }
    ensures { Answers pool.old table.old text.now res.old pool.new table.new res.new result }
{
    if !is_good(pool, table) {
        return Err(NotRead {
            why: Refusal::Malformed,
            line: 0,
            column: 0,
        });
    }
    let read = read_sheet(text, pool, table, work)?;
    copy(work, 0, read.records, res, 0);
    Ok(read)
}
