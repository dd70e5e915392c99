//! An edition's report as one value of JSON.
#![tactic(auto)]

ghost use Rattle.std.specs.Prelude.{IfOk};
ghost use Rattle.edition_checks.specs.Counts.{CountsOf};
ghost use Rattle.edition_checks.specs.Given.{given_of};

use anyhow::Result;
use edition_checks::files::Given;
use edition_checks::status::Totals;
use edition_notes::notes::Notes;
use edition_options::options::Options;
use edition_told::files::Named;
use edition_told::printing::print_whole;
use edition_told::told::{Line, Report, SheetTold, lines_below, tell};
use rules::Refusal;
use serde_json::{Map, Value, put};
use std::alloc::{AllocError, Global};
use std::str::from_utf8;

// A number, or null.
fn number(n: Option<usize>) -> Value {
    match n {
        Some(n) => Value::from(n as u64),
        None => Value::Null,
    }
}

// Bytes as text; what isn't UTF-8 in them is replaced.
fn text(alloc: Global, bytes: &[u8]) -> Result<Value, AllocError> {
    Ok(Value::String(String::from_utf8_lossy(alloc, bytes)?))
}

/// The members of an object so far.
#[derive(Drop)]
struct Members {
    alloc: Global,
    held: Map<String, Value>,
}

impl Members {
    fn new(alloc: Global) -> Members {
        Members {
            alloc,
            held: Map::new(alloc),
        }
    }

    fn put(&mut self, name: &str, value: Value) -> Result<(), AllocError> {
        put(&mut self.held, self.alloc, name, value)?;
        Ok(())
    }

    fn flag(&mut self, name: &str, is: bool) -> Result<(), AllocError> {
        self.put(name, Value::Bool(is))
    }

    fn number(&mut self, name: &str, n: Option<usize>) -> Result<(), AllocError> {
        self.put(name, number(n))
    }

    fn text(&mut self, name: &str, bytes: &[u8]) -> Result<(), AllocError> {
        self.put(name, text(self.alloc, bytes)?)
    }
}

// The rows of an accepted page.
fn rows(alloc: Global, page: &[u8]) -> Result<Value, AllocError> {
    let mut rows = Vec::new(alloc);
    for row in lines_below(alloc, page)? {
        rows.push(text(alloc, row)?)?;
    }
    Ok(Value::Array(rows))
}

fn names_json(alloc: Global, new: &[Vec<u8>]) -> Result<Value, AllocError> {
    let mut all = Vec::new(alloc);
    for name in new {
        all.push(text(alloc, name)?)?;
    }
    Ok(Value::Array(all))
}

// The numbers of lines.
fn lines_json(alloc: Global, lines: &[Line]) -> Result<Value, AllocError> {
    let mut all = Vec::new(alloc);
    for line in lines {
        all.push(number(Some(line.number)))?;
    }
    Ok(Value::Array(all))
}

// What became of a sheet, beside its names and its page.
fn put_facts(members: &mut Members, sheet: &SheetTold) -> Result<(), AllocError> {
    let facts = sheet.facts;
    members.flag("accepted", sheet.accepted)?;
    members.text("finding", facts.finding.as_bytes())?;
    members.number("refusal", facts.refusal)?;
    members.number("line", facts.line)?;
    members.number("column", facts.column)?;
    members.number("constraints", Some(sheet.constraints))?;
    members.number("rounds", facts.rounds)
}

// The bindings and bounds of a sheet that is accepted.
fn put_bindings(members: &mut Members, sheet: &SheetTold) -> Result<(), AllocError> {
    let bindings = if sheet.accepted {
        rows(members.alloc, &sheet.page)?
    } else {
        Value::Array(Vec::new(members.alloc))
    };
    members.put("bindings", bindings)
}

// Why a sheet isn't accepted: the lines that conflict, or the refusal that was met while they were looked for.
fn put_why(members: &mut Members, why: &Result<Vec<Line>, Refusal>) -> Result<(), AllocError> {
    let (lines, refusal) = match why {
        Ok(lines) => (lines_json(members.alloc, lines)?, None),
        Err(why) => (
            Value::Array(Vec::new(members.alloc)),
            Some(why.number() as usize),
        ),
    };
    members.put("why", lines)?;
    members.number("why_refusal", refusal)
}

// Is something that is told of a sheet not UTF-8: its file's name, its page, a new name?
fn is_lossy(named: &Named, sheet: &SheetTold) -> bool {
    if named.is_replaced(&sheet.name) || from_utf8(&sheet.page).is_err() {
        return true;
    }
    sheet.new.iter().any(|name| from_utf8(name).is_err())
}

// What is told of a sheet, with its new names and its page.
fn sheet_json(alloc: Global, named: &Named, sheet: &SheetTold) -> Result<Value, AllocError> {
    let mut members = Members::new(alloc);
    put_facts(&mut members, sheet)?;
    members.text("name", &sheet.name)?;
    members.put("new_names", names_json(alloc, &sheet.new)?)?;
    put_bindings(&mut members, sheet)?;
    members.text("page", &sheet.page)?;
    put_why(&mut members, &sheet.why)?;
    members.flag("lossy", is_lossy(named, sheet))?;
    Ok(Value::Object(members.held))
}

fn sheets_json(alloc: Global, named: &Named, told: &[SheetTold]) -> Result<Value, AllocError> {
    let mut sheets = Vec::new(alloc);
    for sheet in told {
        sheets.push(sheet_json(alloc, named, sheet)?)?;
    }
    Ok(Value::Array(sheets))
}

// The lines of what is noted.
fn notes_json(alloc: Global, notes: &Notes) -> Result<Value, AllocError> {
    let mut all = Vec::new(alloc);
    for line in notes.lines().lines() {
        all.push(text(alloc, line.as_bytes())?)?;
    }
    Ok(Value::Array(all))
}

fn put_totals(members: &mut Members, totals: Totals) -> Result<(), AllocError> {
    members.number("count", Some(totals.sheets))?;
    members.number("accepted", Some(totals.accepted))?;
    members.number("names", Some(totals.names))?;
    members.number("notes", Some(totals.notes))
}

// The whole value.
fn report_json(alloc: Global, named: &Named, report: &Report) -> Result<Value, AllocError> {
    let mut members = Members::new(alloc);
    members.put("sheets", sheets_json(alloc, named, &report.sheets)?)?;
    put_totals(&mut members, report.totals)?;
    members.put("noted", notes_json(alloc, &report.notes)?)?;
    Ok(Value::Object(members.held))
}

// The whole value on a line.
fn report_line(alloc: Global, named: &Named, report: &Report) -> Result<String, AllocError> {
    let mut line = report_json(alloc, named, report)?.to_string(alloc)?;
    line.push('\n')?;
    Ok(line)
}

/// Writes what is told of files as one value, and says what is noted; `named` knows whose names aren't shown as they were given.
pub fn check<R: Print + Eprint + AllocGlobal>(
    rt: &R,
    named: &Named,
    given: &[Given],
    options: Options,
) -> Result<Totals>
    ensures { IfOk result (λ t. CountsOf options.entry.separate (given_of given.now) t.sheets t.accepted) }
{
    let report = tell(rt.alloc(), given, options)?;
    let line = report_line(rt.alloc(), named, &report)?;
    print_whole(rt, line.as_bytes())?;
    report.notes.tell(rt);
    Ok(report.totals)
}
