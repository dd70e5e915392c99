//! A digit of an escape: whoever calls it sees to it that there is such a digit.
ghost use Rattle.std.specs.Prelude.{◌≡◌, ◌<◌};
ghost use Rattle.rules.specs.TextWriting.{hexDigit};

/// A hex digit in small letters.
#[tactic(auto, unfolding(rules::specs::TextWriting::hexDigit))]
pub fn hex_digit(n: u8) -> u8
    requires { n < 16 }
    ensures { result ≡ hexDigit n }
{
    match n {
        0..=9 => b'0' + n,
        _ => b'a' - 10 + n,
    }
}
