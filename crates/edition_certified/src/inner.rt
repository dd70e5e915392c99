//! A sheet and the lines of its certificate, read and judged.
ghost use Rattle.std.specs.Prelude.{◌≡◌, IfOk};
ghost use Rattle.laws.specs.NameTable.{Good};
ghost use Rattle.records.specs.Found.{Words32};
ghost use Rattle.rules.specs.TextReading.{sheetRead};
ghost use Rattle.edition_certificates.specs.Certificates.{verified};
ghost use Rattle.edition_certified.specs.Certified.{noPool, noTable, said, saidOf, linesSaid, textSaid};
ghost use Rattle.edition_certified.specs.Reading.{Kept};
ghost use Rattle.edition_certified.specs.Truth.{LinesAreTrue, TextIsTrue};

use super::Verdict;
use edition_certificates::verify;
use rules::{POOL_BYTES, RECORD_WORDS, TABLE_WORDS, WORK_WORDS};
use std::alloc::{AllocError, Global};
use text::read_text;
use text_sheet::NotRead;

/// Reads a text over the names so far, and keeps its records.
pub fn read_over(
    alloc: Global,
    pool: &mut [u8],
    table: &mut [u32],
    text: &[u8],
) -> Result<Result<Vec<u32>, NotRead>, AllocError>
    requires { Good pool.old table.old }
    ensures { IfOk result (λ r. Kept pool.new table.new r (sheetRead pool.old table.old text.now)) }
{
    let mut res = vec![in alloc; 0u32; RECORD_WORDS]?;
    let mut work = vec![in alloc; 0u32; WORK_WORDS]?;
    match read_text(pool, table, text, &mut res, &mut work) {
        Ok(read) => {
            res.truncate(read.records * 4);
            Ok(Ok(res))
        }
        Err(stop) => Ok(Err(stop)),
    }
}

/// What is said to records of a set and of lines.
pub fn judge_records(
    alloc: Global,
    pool: &[u8],
    table: &[u32],
    set: &[u32],
    lines: &[u32],
) -> Result<Verdict, AllocError>
    ensures answer { IfOk result (λ v. said v ≡ saidOf (verified pool.now table.now set.now lines.now)) }
    ensures words { Words32 lines.now }
{
    match verify(alloc, pool, table, set, lines)? {
        Ok(true) => Ok(Verdict::Verified),
        Ok(false) => Ok(Verdict::Untrue),
        Err(why) => Ok(Verdict::Refused(why)),
    }
}

/// What is said to the records of a set and to lines, read over its names.
pub fn judge_lines(
    alloc: Global,
    pool: &mut [u8],
    table: &mut [u32],
    set: &[u32],
    lines: &[u8],
) -> Result<Verdict, AllocError>
    requires { Good pool.old table.old }
    ensures answer { IfOk result (λ v. said v ≡ linesSaid set.now (sheetRead pool.old table.old lines.now)) }
    ensures truth { IfOk result (LinesAreTrue set.now (sheetRead pool.old table.old lines.now)) }
{
    match read_over(alloc, pool, table, lines)? {
        Ok(records) => judge_records(alloc, pool, table, set, &records),
        Err(stop) => Ok(Verdict::LinesUnread(stop)),
    }
}

/// What is said to the texts of a sheet and of lines.
pub fn judge_text(alloc: Global, text: &[u8], lines: &[u8]) -> Result<Verdict, AllocError>
    ensures answer { IfOk result (λ v. said v ≡ textSaid lines.now (sheetRead noPool noTable text.now)) }
    ensures truth { IfOk result (TextIsTrue text.now lines.now) }
{
    let mut pool = [0u8; POOL_BYTES];
    let mut table = [0u32; TABLE_WORDS];
    match read_over(alloc, &mut pool, &mut table, text)? {
        Ok(set) => judge_lines(alloc, &mut pool, &mut table, &set, lines),
        Err(stop) => Ok(Verdict::Unread(stop)),
    }
}
