//! The files of an edition read over one name table.
ghost use Rattle.std.specs.Prelude.{◌≡◌, ◌≤◌, length, IfOk};
ghost use Rattle.rules.specs.Names.{tableGiven};
ghost use Rattle.rules.specs.TextReading.{sheetRead};
ghost use Rattle.laws.specs.NameTable.{Good};
ghost use Rattle.edition.specs.Files.{FileRead, IsUnseen, ReadAll, Reads};
ghost use Rattle.edition.specs.Reading.{contentOf};
ghost use Rattle.edition.specs.Sheets.{ReadTo};

use crate::model::{Content, File, Room, Sheet};
use names::check_table;
use rules::{Refusal, Unseen};
use std::alloc::{AllocError, Global};
use text::read_text;
use text_sheet::{NotRead, Read};

/// Why the sheets of an edition can't be read: the pool and the table that were lent are short (10) or not well formed (1); there is no memory.
#[derive(Clone, Copy)]
pub enum Unready {
    Names(Refusal),
    Memory(AllocError),
}

// A text as it was read, with its records; or why it couldn't be.
#[derive(Drop)]
struct ReadText {
    read: Result<Read, NotRead>,
    records: Vec<u32>,
}

// Reads a text over the names so far, and keeps its records. The result buffer has 2,048 records.
fn read_one(
    alloc: Global,
    pool: &mut [u8],
    table: &mut [u32],
    text: &[u8],
    res: &mut [u32],
    work: &mut [u32],
) -> Result<ReadText, AllocError>
    requires good { Good pool.old table.old }
    requires result_room { length res.old ≡ 8192 }
    requires room { 16384 ≤ length work.old }
    ensures read { IfOk result (λ x. ReadTo pool.old table.old pool.new table.new x.records.items x.read (sheetRead pool.old table.old text.now)) }
{
    match read_text(pool, table, text, res, work) {
        Ok(read) => {
            let end = read.records * 4;
            let records = Vec::from_slice(alloc, &res[..end])?;
            Ok(ReadText {
                read: Ok(read),
                records,
            })
        }
        Err(stop) => Ok(ReadText {
            read: Err(stop),
            records: Vec::new(alloc),
        }),
    }
}

// What a text holds.
fn content_of(read: Result<Read, NotRead>) -> Content
    ensures { result ≡ contentOf read }
{
    match read {
        Ok(read) => Content::Set(read),
        Err(stop) => Content::Refused(stop),
    }
}

// Reads a file over the names so far.
fn read_file<'a>(
    alloc: Global,
    pool: &mut [u8],
    table: &mut [u32],
    file: File<'a>,
    room: &mut Room,
) -> Result<Sheet<'a>, AllocError>
    requires { Good pool.old table.old }
    ensures { IfOk result (λ x. FileRead file.entry pool.old table.old pool.new table.new x) }
{
    match file.text {
        Ok(text) => {
            let sheet = read_one(alloc, pool, table, text, &mut room.res, &mut room.work)?;
            Ok(Sheet {
                name: file.name,
                text,
                content: content_of(sheet.read),
                records: sheet.records,
            })
        }
        Err(why) => Ok(unseen(alloc, file.name, why)),
    }
}

// The sheet of a file that can't be had.
fn unseen<'a>(alloc: Global, name: &'a [u8], why: Unseen) -> Sheet<'a>
    ensures { IsUnseen name.now why result }
{
    Sheet {
        name,
        text: &[],
        content: Content::Unseen(why),
        records: Vec::new(alloc),
    }
}

// Reads files one after another over a table that is well formed.
fn read_files<'a>(
    alloc: Global,
    pool: &mut [u8],
    table: &mut [u32],
    files: &[File<'a>],
    room: &mut Room,
) -> Result<Vec<Sheet<'a>>, AllocError>
    requires { Good pool.old table.old }
    ensures { IfOk result (λ xs. ReadAll pool.old table.old files.now xs.items pool.new table.new) }
{
    let mut sheets = Vec::new(alloc);
    for file in files {
        let sheet = read_file(alloc, pool, table, *file, room)?;
        sheets.push(sheet)?;
    }
    Ok(sheets)
}

/// Reads the files of an edition one after another over one name table, to which the names of each sheet that is read are added. The table is tested
/// first: where it isn't well formed nothing is read.
pub fn read_all<'a>(
    alloc: Global,
    pool: &mut [u8],
    table: &mut [u32],
    files: &[File<'a>],
    room: &mut Room,
) -> Result<Vec<Sheet<'a>>, Unready>
    ensures { Reads (λ xs. xs.items) result (tableGiven pool.old table.old) pool.old table.old files.now pool.new table.new }
{
    match check_table(pool, table) {
        Ok(()) => match read_files(alloc, pool, table, files, room) {
            Ok(sheets) => Ok(sheets),
            Err(why) => Err(Unready::Memory(why)),
        },
        Err(why) => Err(Unready::Names(why)),
    }
}
