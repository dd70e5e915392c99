//! Lines of a text, by their numbers.
ghost use Rattle.std.specs.Prelude.{◌≡◌};
ghost use Rattle.rules.specs.Reports.{constraintLine, holdsSome, lineIn};
ghost use Rattle.edition_report.specs.Ahead.{leftBehind};

use text_columns::inner::line_end;
use text_scan::inner::skip_blanks;

/// The line with this number, counted from 1; the empty line where there is none.
pub fn line_in(text: &[u8], number: usize) -> &[u8]
    ensures { result.now ≡ lineIn number text.now }
{
    let mut at = 0;
    for _before in 1..number {
        let end = line_end(text, at);
        if end == text.len() {
            return &text[..0];
        }
        at = end + 1;
    }
    let last = line_end(text, at);
    &text[at..last]
}

// Does a line hold a constraint, and not only blanks or a comment?
fn holds_some(line: &[u8]) -> bool
    ensures { result ≡ holdsSome line.now }
{
    let at = skip_blanks(line, 0);
    if line.len() <= at {
        return false;
    }
    line[at] != b'-'
}

// How many constraints are left behind a line.
fn left_behind(here: bool, left: usize) -> usize
    ensures { result ≡ leftBehind here left }
{
    if here { left.saturating_sub(1) } else { left }
}

/// The number of the line that holds the constraint k, counted from 0; 0 where there is none.
pub fn constraint_line(text: &[u8], k: usize) -> usize
    ensures { result ≡ constraintLine k text.now }
{
    let mut at = 0;
    let mut lines = 0;
    let mut left = k;
    loop {
        let end = line_end(text, at);
        let here = holds_some(&text[at..end]);
        if here && left == 0 {
            return lines + 1;
        }
        if end == text.len() {
            return 0;
        }
        left = left_behind(here, left);
        at = end + 1;
        lines += 1;
    }
}
