//! Names, numbers and powers as text: which bytes stand for themselves, and how all are put into a sink.
#![tactic(auto)]

pub mod inner;
pub mod sink;

ghost use Rattle.std.specs.Prelude.{◌≡◌};
ghost use Rattle.rules.specs.Exponents.{frac};
ghost use Rattle.rules.specs.Grammar.{is_plain};
ghost use Rattle.rules.specs.Writing.{signed};
ghost use Rattle.rules.specs.TextWriting.{escaped, nameText, decimal, numeratorText, denominatorText, powerText};
ghost use Rattle.text_spell.specs.Sinks.{Puts};

use exponents::Exponent;
use inner::hex_digit;
use sink::Sink;

/// Does this byte stand for itself in a name?
#[tactic(auto, unfolding(rules::specs::Grammar::is_plain, rules::specs::Grammar::isDigit))]
pub fn is_plain(b: u8) -> bool
    ensures { result ≡ is_plain b }
{
    matches!(b, b'A'..=b'Z' | b'a'..=b'z' | b'0'..=b'9' | b'_' | 128..)
}

/// Puts a byte of a name, escaped where it can't stand for itself.
#[tactic(auto, unfolding(rules::specs::TextWriting::escaped))]
fn put_escaped<S: Sink>(to: &mut S, b: u8) -> Result<(), S::Error>
    ensures { Puts (S.place to.old) (escaped b) result (S.place to.new) }
{
    if is_plain(b) {
        to.put(&[b])
    } else {
        to.put(&[b'\\', hex_digit(b / 16), hex_digit(b % 16)])
    }
}

/// Puts a name.
pub fn put_name<S: Sink>(to: &mut S, name: &[u8]) -> Result<(), S::Error>
    ensures { Puts (S.place to.old) (nameText name.now) result (S.place to.new) }
{
    for b in name {
        put_escaped(to, *b)?;
    }
    Ok(())
}

/// Puts a number in decimal digits, at most k of them.
#[tactic(auto, using(crate::proofs::Names::digits), unfolding(rules::specs::TextWriting::decimal))]
pub fn put_digits<S: Sink>(to: &mut S, k: usize, n: usize) -> Result<(), S::Error>
    ensures { Puts (S.place to.old) (decimal k n) result (S.place to.new) }
{
    if k == 0 {
        return Ok(());
    }
    if n < 10 {
        return to.put(&[b'0' + n as u8]);
    }
    put_digits(to, k - 1, n / 10)?;
    to.put(&[b'0' + (n % 10) as u8])
}

/// Puts a numerator, which comes in two's complement.
#[tactic(auto, using(crate::proofs::Names::numerators))]
fn put_numerator<S: Sink>(to: &mut S, b: u32) -> Result<(), S::Error>
    ensures { Puts (S.place to.old) (numeratorText (signed b)) result (S.place to.new) }
{
    if b < 2147483648 {
        return put_digits(to, 10, b as usize);
    }
    to.put(b"-")?;
    put_digits(to, 10, (4294967295 - b + 1) as usize)
}

/// Puts a denominator, except for 1.
#[tactic(auto, unfolding(rules::specs::TextWriting::denominatorText))]
fn put_denominator<S: Sink>(to: &mut S, d: u32) -> Result<(), S::Error>
    ensures { Puts (S.place to.old) (denominatorText d) result (S.place to.new) }
{
    if d == 1 {
        return Ok(());
    }
    to.put(b"/")?;
    put_digits(to, 10, d as usize)
}

/// Puts a power, except for 1; it comes as the words of a factor's record.
#[tactic(auto, unfolding(rules::specs::TextWriting::powerText))]
pub fn put_power<S: Sink>(to: &mut S, b: u32, d: u32) -> Result<(), S::Error>
    ensures { Puts (S.place to.old) (powerText (frac (signed b) d)) result (S.place to.new) }
{
    if Exponent::from_words(b, d).is_one() {
        return Ok(());
    }
    to.put(b"^(")?;
    put_numerator(to, b)?;
    put_denominator(to, d)?;
    to.put(b")")
}
