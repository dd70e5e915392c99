// Sheets each over a name table of its own.
ghost use Rattle.std.specs.Prelude.{IfOk};
ghost use Rattle.edition_checks.specs.Counts.{CountsApart};
ghost use Rattle.edition_checks.specs.Given.{given_of};

use crate::beside::Beside;
use crate::how::how_of;
use crate::output::output;
use anyhow::{Context, Result};
use edition::model::Room;
use edition_checks::alone::tell_alone;
use edition_checks::files::Given;
use edition_checks::status::Totals;
use edition_checks::written::Written;
use edition_options::options::Options;
use edition_report::words::put_total;
use std::io::Write;
use std::rt::Files;
use text_spell::sink::Sink;

// Tells of files, one after another.
fn tell_each<R: Eprint + AllocGlobal, W: Write + Drop>(
    rt: &R,
    given: &[Given],
    options: Options,
    beside: &mut Beside,
    out: &mut Written<W>,
) -> Result<Totals>
    ensures { IfOk result (λ t. CountsApart (given_of given.now) t.sheets t.accepted) }
{
    let mut room = Room::new();
    let mut totals = Totals::NONE;
    for file in given {
        let told = tell_alone(rt.alloc(), file, how_of(options), &mut room, out)?;
        let noted = beside.add(rt, file, &told.tables, options)?;
        totals = totals.and(told.accepted, told.tables.count(), noted);
    }
    Ok(totals)
}

// Puts the last line, and the names behind it.
fn put_end<W: Write + Drop>(totals: Totals, listed: &[u8], out: &mut Written<W>) -> Result<()> {
    put_total(out, totals.sheets, totals.accepted, totals.names).context(
        "the report can't be written",
    )?;
    out.put(listed).context("the names can't be written")
}

/// Tells of files, one after another; names and certificate come behind. Every file is counted, and each sheet that is accepted as the edition that it is
/// alone.
pub fn check<R: Files + Print + Eprint + AllocGlobal>(
    rt: &R,
    given: &[Given],
    options: Options,
) -> Result<Totals>
    ensures { IfOk result (λ t. CountsApart (given_of given.now) t.sheets t.accepted) }
{
    let mut out = output(rt)?;
    let mut beside = Beside::new(rt.alloc());
    let totals = tell_each(rt, given, options, &mut beside, &mut out)?;
    put_end(totals, &beside.listed, &mut out)?;
    beside.kept.write(rt, options)?;
    beside.kept.is_whole()?;
    Ok(totals)
}
