//! A line of a sheet, read from left to right: blanks, signs, names and numbers.
#![tactic(auto)]

ghost use Rattle.std.specs.Prelude.{◌≡◌};
ghost use Rattle.rules.specs.Grammar.{isBlank, hexOf};
ghost use Rattle.rules.specs.Refusals.{toldOption};

pub mod inner;

/// Is this byte a blank? A line feed isn't: it ends a line.
#[tactic(auto, unfolding(rules::specs::Grammar::isBlank))]
pub fn is_blank(b: u8) -> bool
    ensures { result ≡ isBlank b }
{
    matches!(b, b' ' | b'\t' | b'\r')
}

/// A hex digit's value, in either case.
#[tactic(auto, unfolding(rules::specs::Grammar::hexOf, rules::specs::Grammar::isDigit))]
pub fn hex_of(b: u8) -> Option<u8>
    ensures { toldOption result ≡ hexOf b }
{
    match b {
        b'0'..=b'9' => Some(b - b'0'),
        b'A'..=b'F' => Some(b - b'A' + 10),
        b'a'..=b'f' => Some(b - b'a' + 10),
        _ => None,
    }
}
