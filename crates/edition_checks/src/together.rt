// An edition over one name table.
ghost use Rattle.std.specs.Prelude.{◌≡◌, ◌++◌, false, OnOk, IfOk};
ghost use Rattle.rules.specs.Reports.{editionShown};
ghost use Rattle.edition.specs.Report.{Counted};
ghost use Rattle.edition.specs.Theorems.{AllTrue};
ghost use Rattle.edition.specs.Why.{editionTold};
ghost use Rattle.edition_checks.specs.Given.{editionOf};

use crate::files::{Given, lend};
use crate::tables::Tables;
use anyhow::{Context, Result, bail};
use edition::model::How;
use edition::{Counts, Failed, report_as};
use edition_status::written::Written;
use std::alloc::Global;
use std::io::Write;

/// What a report told: its counts, and the table with all names.
#[derive(Drop)]
pub struct Reported {
    pub counts: Counts,
    pub tables: Tables,
}

/// Reports on files over a table without names: what is passed on is what the definition shows, byte by byte, and so are the counts; and each page that says
/// 'accepted' is true. Nothing is said where the writer fails or there is no memory.
pub fn report_on<W: Write + Drop>(
    alloc: Global,
    given: &[Given],
    how: How,
    to: &mut Written<W>,
) -> Result<Reported>
    ensures told { OnOk result (to.new.passed.items ≡ to.old.passed.items ++ editionTold how.why how.shown (editionOf given.now)) }
    ensures plain { how.why ≡ false → OnOk result (to.new.passed.items ≡ to.old.passed.items ++ editionShown how.shown (editionOf given.now)) }
    ensures counted { IfOk result (λ r. Counted r.counts.sheets r.counts.accepted (editionOf given.now)) }
    ensures truth { OnOk result (AllTrue (editionOf given.now)) }
{
    let files = lend(alloc, given)?;
    let mut tables = Tables::new(alloc)?;
    match report_as(alloc, &mut tables.pool, &mut tables.table, &files, how, to) {
        Ok(counts) => Ok(Reported { counts, tables }),
        Err(Failed::Names(why)) => bail!("the name table is refused with {}", why.number()),
        Err(Failed::Memory(why)) => Err(why.into()),
        Err(Failed::Sink(why)) => Err(why).context("the report can't be written"),
    }
}
