//! Sheets as text: a set of constraints as lines, written and read.
#![tactic(auto)]

pub mod theorems;

ghost use Rattle.std.specs.Prelude.{◌≡◌, ◌≤◌, length};
ghost use Rattle.rules.specs.Base.{got};
ghost use Rattle.rules.specs.Calls.{setCall};
ghost use Rattle.rules.specs.TextReading.{readTextCall};
ghost use Rattle.rules.specs.TextWriting.{writeTextCall};
ghost use Rattle.text_sheet.specs.Given.{readAs};
ghost use Rattle.text.specs.Told.{listedAs};

use names::tables::NameTable;
use records::is_set;
use records_buffers::inner::clear;
use records_buffers::lent;
use rules::Refusal;
use text_sheet::inner::read_given;
use text_sheet::{NotRead, Read};
use text_spell::sink::{Front, Full};
use text_write::inner::write_lines;

/// 173 bytes for each of 2,048 records.
pub const TEXT_BYTES: usize = 354304;

/// Writes a set as lines to the front of a text buffer, and says how many bytes they take.
/// Behind them, and on a refusal, the buffer stays as it is.
pub fn write_text(
    pool: &[u8],
    table: &[u32],
    set: &[u32],
    text: &mut [u8],
) -> Result<usize, Refusal>
    ensures { listedAs result text.new ≡ writeTextCall pool.now table.now set.now text.old }
{
    if text.len() < TEXT_BYTES {
        return Err(Refusal::ShortBuffer);
    }
    is_set(pool, table, set)?;
    let names = NameTable { pool, table };
    write_good(names, set, text)
}

/// Writes a well formed set to a buffer that has room for every set.
fn write_good(names: NameTable, set: &[u32], text: &mut [u8]) -> Result<usize, Refusal>
    requires room { 354304 ≤ length text.old }
    requires good { setCall names.pool.now names.table.now set.now ≡ got tt }
    ensures { listedAs result text.new ≡ writeTextCall names.entry.pool.now names.entry.table.now set.now text.old }
{
    let mut front = Front {
        bytes: text,
        len: 0,
    };
    match write_lines(names, set, 0, &mut front) {
        Ok(()) => Ok(front.len),
        Err(Full) => unreachable!(),
    }
}

/// Reads lines as a set: its records in the result buffer, new names entered; or changes nothing. The work buffer is left all zero.
/// A refusal has its line and its column, both 0 for a buffer that is too short (10) and a table that isn't well formed (1).
pub fn read_text(
    pool: &mut [u8],
    table: &mut [u32],
    text: &[u8],
    res: &mut [u32],
    work: &mut [u32],
) -> Result<Read, NotRead>
    ensures { readAs result pool.new table.new res.new work.new ≡ readTextCall pool.old table.old text.now res.old work.old }
{
    if !lent(pool, table, res, work) {
        return Err(NotRead {
            why: Refusal::ShortBuffer,
            line: 0,
            column: 0,
        });
    }
    let answer = read_given(pool, table, text, res, work);
    clear(work);
    answer
}
