//! Text as it stands in a page of HTML: whatever it holds, no byte of it is taken for markup, in an element or in a quoted attribute.
#![tactic(auto)]

ghost use Rattle.std.specs.Prelude.{◌≡◌};
ghost use Rattle.rules.specs.Base.{collect};
ghost use Rattle.text_spell.specs.Sinks.{Puts};
ghost use Rattle.edition_html.specs.Pages.{NoMarkup, pageByte};

use text_spell::inner::hex_digit;
use text_spell::sink::Sink;

// Puts a byte of a text.
#[tactic(auto, unfolding(crate::specs::Pages::pageByte))]
fn put_byte<S: Sink>(to: &mut S, whole: bool, b: u8) -> Result<(), S::Error>
    ensures { Puts (S.place to.old) (pageByte whole b) result (S.place to.new) }
{
    if b == b'&' {
        return to.put(b"&amp;");
    }
    if b == b'<' {
        return to.put(b"&lt;");
    }
    if b == b'>' {
        return to.put(b"&gt;");
    }
    if b == b'"' {
        return to.put(b"&quot;");
    }
    if b == b'\'' {
        return to.put(b"&#39;");
    }
    if b.is_ascii_control() || (!whole && 128 <= b) {
        return to.put(&[b'\\', hex_digit(b / 16), hex_digit(b % 16)]);
    }
    to.put(&[b])
}

/// Puts a text as it stands in a page: `<`, `>`, `&` and quotes by their references, each control byte as `\` and two hex digits. So too each byte
/// beyond ASCII, unless the text is whole, that is UTF-8.
pub fn put_text<S: Sink>(to: &mut S, whole: bool, text: &[u8]) -> Result<(), S::Error>
    ensures { Puts (S.place to.old) (collect (pageByte whole) text.now) result (S.place to.new) }
{
    for b in text {
        put_byte(to, whole, *b)?;
    }
    Ok(())
}

/// What is put of a text has no `<`, `>`, quote or control byte, and each `&` of it begins one of five references, which are read as a sign and never as
/// markup; of a text that isn't whole it is ASCII (`text-harmless`).
pub fn no_markup()
    ensures { NoMarkup }
{}
