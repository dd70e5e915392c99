// An edition over one name table.
ghost use Rattle.std.specs.Prelude.{IfOk};
ghost use Rattle.edition_checks.specs.Counts.{CountsTogether};
ghost use Rattle.edition_checks.specs.Given.{given_of};

use crate::beside::note;
use crate::certificate::Certificate;
use crate::how::how_of;
use crate::output::output;
use anyhow::{Context, Result};
use edition::model::File;
use edition_checks::files::{Given, lend};
use edition_checks::status::Totals;
use edition_checks::tables::Tables;
use edition_checks::together::report_on;
use edition_checks::written::Written;
use edition_options::options::Options;
use edition_told::listing::list;
use std::io::Write;
use std::rt::Files;
use text_spell::sink::Sink;

// Keeps what is to be kept of files, if that was asked for, and says what is noted on them: so many notes.
fn keep_and_note<R: Files + Eprint + AllocGlobal>(
    rt: &R,
    options: Options,
    files: &[File],
    tables: &Tables,
) -> Result<usize> {
    let mut kept = Certificate::new(rt.alloc());
    if options.certificate.is_some() {
        kept.add(rt.alloc(), files)?;
    }
    kept.write(rt, options)?;
    let noted = note(rt, tables, files)?;
    kept.is_whole()?;
    Ok(noted)
}

// Lists names, if that was asked for, keeps what is to be kept, and says what is noted: so many notes.
fn tell_beside<R: Files + Eprint + AllocGlobal, W: Write + Drop>(
    rt: &R,
    options: Options,
    given: &[Given],
    tables: &Tables,
    out: &mut Written<W>,
) -> Result<usize> {
    let files = lend(rt.alloc(), given)?;
    if options.names {
        out.put(&list(rt.alloc(), &files)?)
            .context("the names can't be written")?;
    }
    keep_and_note(rt, options, &files, tables)
}

/// Reports on files, lists their names if that was asked for, and says what is noted. The sheets of the edition that they are are counted, and those of them
/// that are accepted.
pub fn check<R: Files + Print + Eprint + AllocGlobal>(
    rt: &R,
    given: &[Given],
    options: Options,
) -> Result<Totals>
    ensures { IfOk result (λ t. CountsTogether (given_of given.now) t.sheets t.accepted) }
{
    let mut out = output(rt)?;
    let reported = report_on(rt.alloc(), given, how_of(options), &mut out)?;
    let noted = tell_beside(rt, options, given, &reported.tables, &mut out)?;
    Ok(Totals {
        sheets: reported.counts.sheets,
        accepted: reported.counts.accepted,
        names: reported.tables.count(),
        notes: noted,
    })
}
