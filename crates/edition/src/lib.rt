//! An edition checked: all its sheets read over one name table, then solved, judged and told one after another.
#![tactic(auto)]

pub mod intake;
pub mod model;
pub mod telling;
pub mod theorems;
pub mod why;

ghost use Rattle.std.specs.Prelude.{◌≡◌, ◌++◌, OnOk, IfOk};
ghost use Rattle.rules.specs.Names.{tableGiven};
ghost use Rattle.rules.specs.Reports.{Edition, editionGiven, editionShown};
ghost use Rattle.text_spell.specs.Sinks.{Puts};
ghost use Rattle.edition.specs.Files.{files_of};
ghost use Rattle.edition.specs.Pages.{done};
ghost use Rattle.edition.specs.Report.{Counted, Leaves, sunkOf};
ghost use Rattle.edition.specs.Told.{Whole};
ghost use Rattle.edition.specs.Theorems.{AllTrue};
ghost use Rattle.edition.specs.Why.{editionTold, editionWhy};

use edition_report::words::put_total;
use intake::{Unready, read_all};
use model::{File, How, Room, Sheet};
use names::tables::NameTable;
use rules::{Refusal, Shown};
use std::alloc::{AllocError, Global};
use telling::tell_each;
use text_spell::sink::Sink;

/// How many sheets a report tells of, and how many of them are accepted.
#[derive(Clone, Copy)]
pub struct Counts {
    pub sheets: usize,
    pub accepted: usize,
}

/// Why there is no whole report: the pool and the table that were lent are short (10) or not well formed (1); there is no memory; the sink refuses.
pub enum Failed<E> {
    Names(Refusal),
    Memory(AllocError),
    Sink(E),
}

// Solves, judges and tells sheets over the table with all names, and puts the last line.
fn tell_edition<S: Sink>(
    names: NameTable,
    how: How,
    sheets: &[Sheet],
    room: &mut Room,
    to: &mut S,
) -> Result<Counts, S::Error>
    ensures told { (e : Edition) → Whole names.entry.pool.now names.entry.table.now sheets.now e
        → Puts (S.place to.old) (editionTold how.why how.shown e) (done result) (S.place to.new) }
    ensures counted { (e : Edition) → Whole names.entry.pool.now names.entry.table.now sheets.now e → IfOk result (λ n. Counted n.sheets n.accepted e) }
{
    let accepted = tell_each(names, how, sheets, room, to)?;
    put_total(to, sheets.len(), accepted, names.table[0] as usize)?;
    Ok(Counts {
        sheets: sheets.len(),
        accepted,
    })
}

// A sink's refusal is a failure of the report.
fn sunk<E>(told: Result<Counts, E>) -> Result<Counts, Failed<E>>
    ensures { result ≡ sunkOf told }
{
    match told {
        Ok(counts) => Ok(counts),
        Err(why) => Err(Failed::Sink(why)),
    }
}

/// Checks an edition as `report` does, and tells it as it is asked for: which pages, and with or without why a sheet isn't accepted.
pub fn report_as<S: Sink>(
    alloc: Global,
    pool: &mut [u8],
    table: &mut [u32],
    files: &[File],
    how: How,
    to: &mut S,
) -> Result<Counts, Failed<S::Error>>
    ensures told { OnOk result
        ((S.place to.new).held ≡ (S.place to.old).held ++ editionTold how.why how.shown (editionGiven pool.old table.old (files_of files.now))) }
    ensures counted { IfOk result (λ n. Counted n.sheets n.accepted (editionGiven pool.old table.old (files_of files.now))) }
    ensures truth { AllTrue (editionGiven pool.old table.old (files_of files.now)) }
    ensures leaves { Leaves result (tableGiven pool.old table.old) pool.old table.old pool.new table.new (S.place to.old) (S.place to.new)
        (editionGiven pool.old table.old (files_of files.now)) }
{
    let mut room = Room::new();
    match read_all(alloc, pool, table, files, &mut room) {
        Ok(sheets) => {
            let names = NameTable { pool, table };
            sunk(tell_edition(names, how, &sheets, &mut room, to))
        }
        Err(Unready::Names(why)) => Err(Failed::Names(why)),
        Err(Unready::Memory(why)) => Err(Failed::Memory(why)),
    }
}

/// Checks an edition: reads its files over one name table, solves and judges each sheet by itself over the table with all names, and puts a page for
/// each as soon as it is judged (quietly, only for those that aren't accepted), and the last line.
pub fn report<S: Sink>(
    alloc: Global,
    pool: &mut [u8],
    table: &mut [u32],
    files: &[File],
    shown: Shown,
    to: &mut S,
) -> Result<Counts, Failed<S::Error>>
    ensures told { OnOk result ((S.place to.new).held ≡ (S.place to.old).held ++ editionShown shown (editionGiven pool.old table.old (files_of files.now))) }
    ensures counted { IfOk result (λ n. Counted n.sheets n.accepted (editionGiven pool.old table.old (files_of files.now))) }
    ensures truth { AllTrue (editionGiven pool.old table.old (files_of files.now)) }
    ensures leaves { Leaves result (tableGiven pool.old table.old) pool.old table.old pool.new table.new (S.place to.old) (S.place to.new)
        (editionGiven pool.old table.old (files_of files.now)) }
{
    report_as(alloc, pool, table, files, How { shown, why: false }, to)
}

/// Checks an edition as `report` does, and puts behind each page why its sheet isn't accepted: the lines that conflict.
pub fn report_why<S: Sink>(
    alloc: Global,
    pool: &mut [u8],
    table: &mut [u32],
    files: &[File],
    shown: Shown,
    to: &mut S,
) -> Result<Counts, Failed<S::Error>>
    ensures told { OnOk result ((S.place to.new).held ≡ (S.place to.old).held ++ editionWhy shown (editionGiven pool.old table.old (files_of files.now))) }
    ensures counted { IfOk result (λ n. Counted n.sheets n.accepted (editionGiven pool.old table.old (files_of files.now))) }
    ensures truth { AllTrue (editionGiven pool.old table.old (files_of files.now)) }
    ensures leaves { Leaves result (tableGiven pool.old table.old) pool.old table.old pool.new table.new (S.place to.old) (S.place to.new)
        (editionGiven pool.old table.old (files_of files.now)) }
{
    report_as(alloc, pool, table, files, How { shown, why: true }, to)
}
