// Sheets judged by a certificate, with nothing solved: a line for each.
ghost use Rattle.std.specs.Prelude.{◌≡◌, ◌≤◌, ◌++◌, OnOk, IfOk};
ghost use Rattle.laws.specs.Lists.{Every};
ghost use Rattle.edition_verify.specs.Verifying.{TrueBy, sheetsIn, verifiedIn, verifiedText};
ghost use Rattle.edition_checks.specs.Given.{given_of};

use crate::files::{Given, lend};
use anyhow::{Context, Result};
use edition_certificate_file::Entry;
use edition_status::status::Totals;
use edition_status::written::Written;
use edition_verify::verify_files;
use std::alloc::Global;
use std::io::Write;
use text_spell::sink::Sink;

/// Judges files by what a certificate keeps: what is passed on is what the definition says, byte by byte, and so are the counts; and where every sheet is
/// counted as verified, each file is the one that was certified, and true.
pub fn verify_on<W: Write + Drop>(
    alloc: Global,
    entries: &[Entry],
    given: &[Given],
    to: &mut Written<W>,
) -> Result<Totals>
    ensures told { OnOk result (to.new.passed.items ≡ to.old.passed.items ++ verifiedText entries.now (given_of given.now)) }
    ensures sheets { IfOk result (λ t. t.sheets ≡ sheetsIn entries.now (given_of given.now)) }
    ensures verified { IfOk result (λ t. t.accepted ≡ verifiedIn entries.now (given_of given.now)) }
    ensures truth { IfOk result (λ t. t.sheets ≤ t.accepted → Every (TrueBy entries.now) (given_of given.now)) }
{
    let files = lend(alloc, given)?;
    let mut lines = Vec::new(alloc);
    let verified = verify_files(alloc, entries, &files, &mut lines)?;
    to.put(&lines).context("what is verified can't be written")?;
    Ok(Totals {
        sheets: verified.sheets,
        accepted: verified.verified,
        names: 0,
        notes: 0,
    })
}
