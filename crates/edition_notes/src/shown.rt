// Names as they are shown.
ghost use Rattle.std.specs.Prelude.{◌≡◌, ◌++◌, OnOk, chars};
ghost use Rattle.std.specs.List.{flat_map};
ghost use Rattle.std.specs.String.{string_bytes};
ghost use Rattle.edition_notes.specs.Shown.{shownChar, shownName};

use edition_look_alikes::has_unseen;
use std::alloc::AllocError;
use std::fmt;
use std::fmt::Write;
use std::str::from_utf8;
use text_spell::is_plain;

// Adds a character, "?" for a control character.
fn push_char(out: &mut String, c: char) -> Result<(), AllocError>
    ensures { OnOk result (string_bytes out.new ≡ string_bytes out.old ++ shownChar c) }
{
    out.push(if c.is_control() { '?' } else { c })
}

// Adds a text's characters.
fn push_chars(out: &mut String, text: &str) -> Result<(), AllocError>
    ensures { OnOk result (string_bytes out.new ≡ string_bytes out.old ++ flat_map shownChar (chars text.now)) }
{
    for c in text.chars() {
        push_char(out, c)?;
    }
    Ok(())
}

/// Adds a file's name as it is shown: U+FFFD where its bytes are no characters, "?" for a control character.
pub fn push_shown(out: &mut String, name: &[u8]) -> Result<(), AllocError>
    ensures { OnOk result (string_bytes out.new ≡ string_bytes out.old ++ shownName name.now) }
{
    let alloc = *out.allocator();
    let text = String::from_utf8_lossy(alloc, name)?;
    push_chars(out, text.as_str())
}

/// Adds a name in ASCII: each other byte as "\" and two hex digits, as it may be typed.
pub(crate) fn push_spelled(out: &mut String, name: &[u8]) -> Result<(), fmt::Error> {
    for b in name {
        if is_plain(*b) && b.is_ascii() {
            out.push(*b as char)?;
        } else {
            write!(out, "\\{b:02x}")?;
        }
    }
    Ok(())
}

/// A name as it is seen, if it can be shown as it is and has more than ASCII.
pub(crate) fn as_seen(name: &[u8]) -> Option<&str> {
    let text = from_utf8(name).ok()?;
    if text.is_ascii() || has_unseen(name) {
        return None;
    }
    Some(text)
}
