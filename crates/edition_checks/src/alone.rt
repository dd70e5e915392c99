// A sheet over a name table of its own.
ghost use Rattle.std.specs.Prelude.{◌≡◌, ◌++◌, [], ◌∷◌, OnOk, IfOk};
ghost use Rattle.rules.specs.Names.{table_of};
ghost use Rattle.rules.specs.Reports.{acceptedIn};
ghost use Rattle.edition.specs.Report.{Named};
ghost use Rattle.edition_checks.specs.Given.{editionOf, pagesTold};

use crate::files::Given;
use crate::tables::Tables;
use anyhow::{Context, Result};
use edition::model::{How, Room};
use edition::telling::tell_each;
use edition_status::written::Written;
use std::alloc::Global;
use std::io::Write;

/// What was told of one sheet: is it accepted (1) or not (0), and the table with its names.
#[derive(Drop)]
pub struct Told {
    pub accepted: usize,
    pub tables: Tables,
}

/// Tells of one sheet: its page is that of the edition that it is alone, and so is its why, if that is asked for. Nothing is said where the writer fails or
/// there is no memory.
pub fn tell_alone<W: Write + Drop>(
    alloc: Global,
    given: &Given,
    how: How,
    room: &mut Room,
    to: &mut Written<W>,
) -> Result<Told>
    ensures told { OnOk result (to.new.passed.items ≡ to.old.passed.items ++ pagesTold how.why how.shown (given.now ∷ [])) }
    ensures counted { IfOk result (λ t. t.accepted ≡ acceptedIn (table_of t.tables.pool.items t.tables.table.items) (editionOf (given.now ∷ [])).pages) }
    ensures named { IfOk result (λ t. Named t.tables.pool.items t.tables.table.items (editionOf (given.now ∷ []))) }
{
    let files = [given.file()];
    let mut tables = Tables::new(alloc)?;
    let sheets = tables.read(alloc, &files, room)?;
    let accepted = tell_each(tables.names()?, how, &sheets, room, to).context(
        "the report can't be written",
    )?;
    Ok(Told { accepted, tables })
}
