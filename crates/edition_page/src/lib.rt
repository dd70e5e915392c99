//! An edition's report as a page of HTML: one file, with nothing fetched and no script. What comes from a file goes through `Html::text`.
#![tactic(auto)]

ghost use Rattle.std.specs.Prelude.{IfOk};
ghost use Rattle.edition_checks.specs.Counts.{CountsOf};
ghost use Rattle.edition_checks.specs.Given.{given_of};

use crate::Piece::{Count, Number, Raw, Text};
use anyhow::{Context, Result};
use edition_checks::files::Given;
use edition_checks::status::Totals;
use edition_html::put_text;
use edition_notes::notes::Notes;
use edition_options::options::Options;
use edition_options::output::{PAGE, write_file};
use edition_report::words::{put_amount, put_quantity, put_refused, put_total};
use edition_told::printing::print_whole;
use edition_told::told::{Facts, Line, Report, SheetTold, lines_below, tell};
use rules::Refusal;
use std::alloc::{AllocError, Global};
use std::rt::Files;
use std::str::from_utf8;
use text_spell::sink::Sink;

/// How the page looks, on a screen and on paper.
const STYLE: &str = "
  body { font: 1rem/1.5 system-ui, sans-serif; color: #1b1b1b; background: #fff; max-width: 62rem; margin: 2rem auto; padding: 0 1rem; }
  h1 { margin-bottom: 0.2rem; }
  h2 { font-size: 1.1rem; margin: 2rem 0 0.3rem; overflow-wrap: anywhere; }
  table { border-collapse: collapse; margin: 0.8rem 0; }
  caption { text-align: left; font-weight: 600; padding: 0.2rem 0; white-space: nowrap; }
  th code { font-weight: normal; }
  th, td { text-align: left; vertical-align: top; padding: 0.25rem 0.8rem 0.25rem 0; border-bottom: 1px solid #ccc; overflow-wrap: anywhere; }
  td.count, th.count { text-align: right; }
  h2, th a, code { white-space: pre-wrap; }
  code, pre { font-family: ui-monospace, monospace; font-size: 0.92em; }
  pre { background: #f4f4f4; padding: 0.5rem 0.8rem; overflow-x: auto; white-space: pre-wrap; overflow-wrap: anywhere; }
  mark { background: #ffd84d; border-bottom: 3px solid #b00020; }
  .yes { color: #11602b; font-weight: 600; }
  .no { color: #b00020; font-weight: 600; }
  section { break-inside: avoid; }
  @media print { body { margin: 0; max-width: none; } a { color: inherit; text-decoration: none; } }
";

/// A piece of a page: markup of this program's own; text, whatever it holds; a number, or none.
#[derive(Clone, Copy)]
enum Piece<'a> {
    Raw(&'static str),
    Text(&'a [u8]),
    Number(usize),
    Count(Option<usize>),
}

/// A page so far.
#[derive(Drop)]
struct Html {
    out: Vec<u8>,
}

impl Html {
    fn piece(&mut self, piece: Piece) -> Result<(), AllocError> {
        match piece {
            Raw(markup) => self.out.put(markup.as_bytes()),
            Text(bytes) => put_text(&mut self.out, from_utf8(bytes).is_ok(), bytes),
            Number(n) | Count(Some(n)) => put_amount(&mut self.out, n),
            Count(None) => Ok(()),
        }
    }

    // Pieces, one after another.
    fn put(&mut self, pieces: &[Piece]) -> Result<(), AllocError> {
        for piece in pieces {
            self.piece(*piece)?;
        }
        Ok(())
    }

    // A line of a sheet, with a part of it marked.
    fn line(&mut self, line: &[u8], marked: usize, end: usize) -> Result<(), AllocError> {
        let end = end.min(line.len());
        let marked = marked.min(end);
        self.put(&[
            Raw("<pre><code>"),
            Text(&line[..marked]),
            Raw("<mark>"),
            Raw(if marked == end { " " } else { "" }),
            Text(&line[marked..end]),
            Raw("</mark>"),
            Text(&line[end..]),
            Raw("</code></pre>\n"),
        ])
    }
}

// What stands in front of the first such sign in a text, and what behind it.
fn split_once<'a>(text: &'a [u8], sign: &[u8]) -> Option<(&'a [u8], &'a [u8])> {
    for k in 0..text.len() {
        if let Some(rest) = text[k..].strip_prefix(sign) {
            return Some((&text[..k], rest));
        }
    }
    None
}

// What stands behind the first such sign; all, where there is none.
fn behind<'a>(text: &'a [u8], sign: &[u8]) -> &'a [u8] {
    match split_once(text, sign) {
        Some((_, rest)) => rest,
        None => text,
    }
}

// What stands in front of the first such sign; all, where there is none.
fn first_part<'a>(text: &'a [u8], sign: &[u8]) -> &'a [u8] {
    match split_once(text, sign) {
        Some((first, _)) => first,
        None => text,
    }
}

// What became of a sheet in words: what stands on the first line of its page behind the name, the place and ": ".
fn verdict(sheet: &SheetTold) -> &[u8] {
    let first = first_part(&sheet.page, b"\n");
    behind(&first[sheet.name.len().min(first.len())..], b": ")
}

fn class(accepted: bool) -> &'static str {
    if accepted { "yes" } else { "no" }
}

// The rest of a cell that says whether a sheet is accepted.
fn cell(accepted: bool) -> &'static str {
    if accepted {
        "\">accepted</td>"
    } else {
        "\">not accepted</td>"
    }
}

// A binding's or a bound's name, and what it is.
fn name_and_type(row: &[u8]) -> (&[u8], &[u8]) {
    if let Some(parts) = split_once(row, b" ~ ") {
        return parts;
    }
    match split_once(row, b": ") {
        Some(parts) => parts,
        None => (row, b"".as_slice()),
    }
}

// A byte that goes on a character of UTF-8.
fn is_within(b: u8) -> bool {
    matches!(b, 128..=191)
}

// Where the character stands that has so many in front of it.
fn place_of(line: &[u8], before: usize) -> usize {
    let mut left = before;
    for (k, b) in line.iter().enumerate() {
        if !is_within(*b) {
            if left == 0 {
                return k;
            }
            left -= 1;
        }
    }
    line.len()
}

impl Html {
    fn head(&mut self, totals: Totals) -> Result<(), AllocError> {
        self.put(&[
            Raw(PAGE),
            Number(totals.accepted),
            Raw(" of "),
            Number(totals.sheets),
            Raw(" accepted</title>\n<style>"),
            Raw(STYLE),
            Raw("</style>\n</head>\n<body>\n<h1>An edition checked</h1>\n<p>"),
        ])?;
        put_total(&mut self.out, totals.sheets, totals.accepted, totals.names)?;
        self.put(&[
            Raw("<meter min=\"0\" max=\"256\" aria-label=\"names in the table\" value=\""),
            Number(totals.names),
            Raw("\"></meter></p>\n"),
        ])?;
        self.noted(totals.notes)
    }

    // How many notes there are, if there are some: they stand at the end.
    fn noted(&mut self, notes: usize) -> Result<(), AllocError> {
        if notes == 0 {
            return Ok(());
        }
        self.piece(Raw("<p><a href=\"#notes\">"))?;
        put_quantity(&mut self.out, notes, b" note")?;
        self.piece(Raw("</a></p>\n"))
    }

    // The table of all sheets: a row each.
    fn overview(&mut self, sheets: &[SheetTold]) -> Result<(), AllocError> {
        self.put(&[
            Raw(
                "<table>\n<caption>Sheets</caption>\n<thead><tr><th scope=\"col\">Sheet</th><th scope=\"col\">Verdict</th>",
            ),
            Raw(
                "<th scope=\"col\" class=\"count\">Constraints</th><th scope=\"col\" class=\"count\">Rounds</th>",
            ),
            Raw("<th scope=\"col\" class=\"count\">New names</th></tr></thead>\n<tbody>\n"),
        ])?;
        for (k, sheet) in sheets.iter().enumerate() {
            self.row(k, sheet)?;
        }
        self.piece(Raw("</tbody>\n</table>\n"))
    }

    // A sheet's row in it, with what is counted of it: constraints, rounds, new names.
    fn row(&mut self, k: usize, sheet: &SheetTold) -> Result<(), AllocError> {
        self.put(&[
            Raw("<tr><th scope=\"row\"><a href=\"#sheet"),
            Number(k),
            Raw("\">"),
            Text(&sheet.name),
            Raw("</a></th><td class=\""),
            Raw(class(sheet.accepted)),
            Raw(cell(sheet.accepted)),
            Raw("<td class=\"count\">"),
            Number(sheet.constraints),
            Raw("</td><td class=\"count\">"),
            Count(sheet.facts.rounds),
            Raw("</td><td class=\"count\">"),
            Number(sheet.new.len()),
            Raw("</td></tr>\n"),
        ])
    }

    // A row with a name and what it is.
    fn binding(&mut self, row: &[u8]) -> Result<(), AllocError> {
        let (name, is) = name_and_type(row);
        self.put(&[
            Raw("<tr><th scope=\"row\"><code>"),
            Text(name),
            Raw("</code></th><td><code>"),
            Text(is),
            Raw("</code></td></tr>\n"),
        ])
    }

    // The bindings and bounds of an accepted sheet.
    fn bindings(&mut self, rows: &[&[u8]]) -> Result<(), AllocError> {
        if rows.is_empty() {
            return Ok(());
        }
        self.put(&[
            Raw(
                "<table>\n<caption>Under these every constraint is true</caption>\n<thead><tr><th scope=\"col\">Name</th>",
            ),
            Raw("<th scope=\"col\">Type</th></tr></thead>\n<tbody>\n"),
        ])?;
        for row in rows {
            self.binding(row)?;
        }
        self.piece(Raw("</tbody>\n</table>\n"))
    }

    // The refused line, with the place marked; the line of a constraint that isn't true is marked as a whole.
    fn refused(&mut self, lines: &[&[u8]]) -> Result<(), AllocError> {
        match lines {
            [line, mark, ..] => {
                let before = first_part(mark, b"^").len();
                let at = place_of(line, before);
                self.line(line, at, place_of(line, before.saturating_add(1)))
            }
            [line] => self.line(line, 0, line.len()),
            [] => Ok(()),
        }
    }

    // The constraints that remain.
    fn remaining(&mut self, rows: &[&[u8]]) -> Result<(), AllocError> {
        self.piece(Raw("<p>What remains; no rule applies to these lines:</p>\n<ul>\n"))?;
        for row in rows {
            self.put(&[Raw("<li><code>"), Text(row), Raw("</code></li>\n")])?;
        }
        self.piece(Raw("</ul>\n"))
    }

    // The lines that conflict, each with its number.
    fn conflict(&mut self, lines: &[Line]) -> Result<(), AllocError> {
        if lines.is_empty() {
            return Ok(());
        }
        self.put(&[
            Raw(
                "<table>\n<caption>These lines conflict, and without any one of them the others don't</caption>\n<thead><tr>",
            ),
            Raw(
                "<th scope=\"col\" class=\"count\">Line</th><th scope=\"col\">Constraint</th></tr></thead>\n<tbody>\n",
            ),
        ])?;
        for line in lines {
            self.conflicting(line)?;
        }
        self.piece(Raw("</tbody>\n</table>\n"))
    }

    fn conflicting(&mut self, line: &Line) -> Result<(), AllocError> {
        self.put(&[
            Raw("<tr><th scope=\"row\" class=\"count\">"),
            Number(line.number),
            Raw("</th><td><code>"),
            Text(&line.text),
            Raw("</code></td></tr>\n"),
        ])
    }

    // That no lines are told, since a refusal was met while they were looked for.
    fn unknown(&mut self, why: Refusal) -> Result<(), AllocError> {
        self.piece(Raw("<p>Looking for lines that conflict: "))?;
        put_refused(&mut self.out, why)?;
        self.piece(Raw("</p>\n"))
    }

    // The names that a sheet has first.
    fn new_names(&mut self, new: &[Vec<u8>]) -> Result<(), AllocError> {
        if new.is_empty() {
            return Ok(());
        }
        self.piece(Raw("<p>New names:"))?;
        for name in new {
            self.put(&[Raw(" <code>"), Text(name), Raw("</code>")])?;
        }
        self.piece(Raw("</p>\n"))
    }

    // What is told of a sheet.
    fn sheet(&mut self, alloc: Global, k: usize, sheet: &SheetTold) -> Result<(), AllocError> {
        self.put(&[
            Raw("<section id=\"sheet"),
            Number(k),
            Raw("\">\n<h2>"),
            Text(&sheet.name),
            Raw("</h2>\n<p class=\""),
            Raw(class(sheet.accepted)),
            Raw("\">"),
            Text(verdict(sheet)),
            Raw("</p>\n"),
        ])?;
        self.place(sheet.facts)?;
        self.body(&lines_below(alloc, &sheet.page)?, sheet)?;
        self.new_names(&sheet.new)?;
        self.piece(Raw("</section>\n"))
    }

    // The line that a verdict is of, and the column, where it is of one.
    fn place(&mut self, facts: Facts) -> Result<(), AllocError> {
        let Some(line) = facts.line else {
            return Ok(());
        };
        self.put(&[
            Raw("<p>Line "),
            Number(line),
            Raw(if facts.column.is_some() {
                ", column "
            } else {
                ""
            }),
            Count(facts.column),
            Raw(":</p>\n"),
        ])
    }

    // What the lines of a sheet's page below its first say.
    fn body(&mut self, lines: &[&[u8]], sheet: &SheetTold) -> Result<(), AllocError> {
        if sheet.accepted {
            return self.bindings(lines);
        }
        if sheet.facts.line.is_some() {
            return self.refused(lines);
        }
        if lines.is_empty() {
            return Ok(());
        }
        self.remaining(lines)?;
        match &sheet.why {
            Ok(lines) => self.conflict(lines),
            Err(why) => self.unknown(*why),
        }
    }

    // What is told of each sheet.
    fn sheets(&mut self, alloc: Global, sheets: &[SheetTold]) -> Result<(), AllocError> {
        for (k, sheet) in sheets.iter().enumerate() {
            self.sheet(alloc, k, sheet)?;
        }
        Ok(())
    }

    // A whole report.
    fn report(&mut self, alloc: Global, report: &Report) -> Result<(), AllocError> {
        self.head(report.totals)?;
        self.overview(&report.sheets)?;
        self.sheets(alloc, &report.sheets)?;
        self.notes(&report.notes)?;
        self.piece(Raw("</body>\n</html>\n"))
    }

    // What is noted: lines that begin with two blanks belong to the note before them.
    fn notes(&mut self, notes: &Notes) -> Result<(), AllocError> {
        if notes.count == 0 {
            return Ok(());
        }
        self.piece(Raw("<section id=\"notes\">\n<h2>Notes</h2>\n<pre>"))?;
        for line in notes.lines().lines() {
            self.put(&[Text(line.as_bytes()), Raw("\n")])?;
        }
        self.piece(Raw("\n</pre>\n</section>\n"))
    }
}

// The page of a report.
fn page(alloc: Global, report: &Report) -> Result<Vec<u8>, AllocError> {
    let mut html = Html {
        out: Vec::new(alloc),
    };
    html.report(alloc, report)?;
    Ok(html.out)
}

// Writes the page of a report into a file.
fn write_page<R: Files + AllocGlobal>(rt: &R, path: &str, report: &Report) -> Result<()> {
    let page = page(rt.alloc(), report)?;
    write_file(rt, path, &page).context("the page can't be written")
}

// The last line of a report.
fn last_line(alloc: Global, totals: Totals) -> Result<Vec<u8>, AllocError> {
    let mut last = Vec::new(alloc);
    put_total(&mut last, totals.sheets, totals.accepted, totals.names)?;
    Ok(last)
}

/// Writes what is told of files as a page into a file, prints the last line of the report, and says what is noted.
pub fn check<R: Files + Print + Eprint + AllocGlobal>(
    rt: &R,
    given: &[Given],
    options: Options,
    path: &str,
) -> Result<Totals>
    ensures { IfOk result (λ t. CountsOf options.entry.separate (given_of given.now) t.sheets t.accepted) }
{
    let report = tell(rt.alloc(), given, options)?;
    write_page(rt, path, &report)?;
    print_whole(rt, &last_line(rt.alloc(), report.totals)?)?;
    report.notes.tell(rt);
    Ok(report.totals)
}
