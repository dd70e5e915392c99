//! Bytes and lines as they are shown.
ghost use Rattle.std.specs.Prelude.{◌≡◌, ◌-◌, map, eqb, take, drop, replicate, length};
ghost use Rattle.rules.specs.Base.{collect};
ghost use Rattle.rules.specs.Reports.{shown, firstShown, cut, partShown, room, markShown, lineShown};
ghost use Rattle.text_spell.specs.Sinks.{Puts};

use text_spell::sink::Sink;

/// A byte as it is shown: control bytes as "?".
#[tactic(auto, unfolding(rules::specs::Reports::shown))]
pub fn show_byte(b: u8) -> u8
    ensures { result ≡ shown b }
{
    if b.is_ascii_control() { b'?' } else { b }
}

/// Puts bytes as they are shown.
pub fn put_shown<S: Sink>(to: &mut S, text: &[u8]) -> Result<(), S::Error>
    ensures { Puts (S.place to.old) (map shown text.now) result (S.place to.new) }
{
    for b in text {
        to.put(&[show_byte(*b)])?;
    }
    Ok(())
}

// Puts a blank under a byte, except for one that goes on a character of UTF-8.
#[tactic(auto, unfolding(rules::specs::Reports::room))]
fn put_room<S: Sink>(to: &mut S, b: u8) -> Result<(), S::Error>
    ensures { Puts (S.place to.old) (room b) result (S.place to.new) }
{
    if matches!(b, 128..=191) {
        return Ok(());
    }
    to.put(b" ")
}

// Puts blanks under bytes.
fn put_rooms<S: Sink>(to: &mut S, part: &[u8]) -> Result<(), S::Error>
    ensures { Puts (S.place to.old) (collect room part.now) result (S.place to.new) }
{
    for b in part {
        put_room(to, *b)?;
    }
    Ok(())
}

// From where on a line is shown: 60 bytes in front of the column.
#[tactic(auto, unfolding(rules::specs::Reports::firstShown))]
fn first_shown(column: usize) -> usize
    ensures { result ≡ firstShown column }
{
    column.saturating_sub(61)
}

// At most n bytes of a line, from a place on.
fn part(line: &[u8], first: usize, n: usize) -> &[u8]
    ensures { result.now ≡ take n (drop first line.now) }
{
    let rest = &line[first.min(line.len())..];
    &rest[..n.min(rest.len())]
}

// Dots where the front of a line is cut.
fn dots(first: usize) -> &'static [u8]
    ensures { result.now ≡ cut (eqb first 0) }
{
    if first == 0 { b"" } else { b"..." }
}

// Blanks under these dots.
fn under_dots(first: usize) -> &'static [u8]
    ensures { result.now ≡ replicate (length (cut (eqb first 0))) 32 }
{
    if first == 0 { b"" } else { b"   " }
}

/// Puts at most 120 bytes of a line as they are shown, from a place on.
pub fn put_part<S: Sink>(to: &mut S, first: usize, line: &[u8]) -> Result<(), S::Error>
    ensures { Puts (S.place to.old) (partShown first line.now) result (S.place to.new) }
{
    to.put(b"  ")?;
    to.put(dots(first))?;
    put_shown(to, part(line, first, 120))?;
    to.put(b"\n")
}

// Puts a mark under a line that is shown from a place on, under the byte behind so many.
fn put_mark<S: Sink>(to: &mut S, first: usize, before: usize, line: &[u8]) -> Result<(), S::Error>
    ensures { Puts (S.place to.old) (markShown first before line.now) result (S.place to.new) }
{
    to.put(b"  ")?;
    to.put(under_dots(first))?;
    put_rooms(to, part(line, first, before))?;
    to.put(b"^\n")
}

/// Puts a line as it is shown, with a mark under the column.
pub fn show_line<S: Sink>(to: &mut S, column: usize, line: &[u8]) -> Result<(), S::Error>
    ensures { Puts (S.place to.old) (lineShown column line.now) result (S.place to.new) }
{
    let first = first_shown(column);
    let before = column.saturating_sub(1).saturating_sub(first);
    put_part(to, first, line)?;
    put_mark(to, first, before, line)
}
