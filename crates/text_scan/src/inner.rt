//! Places in a line are counted from 0: a column is one more. What fits nothing is told by the place of its first byte.
ghost use Rattle.std.specs.Prelude.{◌≡◌, suc, ◌≤◌, ◌<◌, length, drop, get_or};
ghost use Rattle.rules.specs.Grammar.{spellFrom};
ghost use Rattle.text_scan.specs.Scanned.{Skipped, spelt, HexAt, Escaped, Goes};
ghost use Rattle.text_scan.specs.Names.{NameScanned};
ghost use Rattle.text_scan.specs.Numbers.{DigitAt, NumberScanned};

use super::{hex_of, is_blank};
use text_spell::is_plain;

/// What stands for all larger numbers: 2 ^ 31, which no exponent reaches.
const CAP: u64 = 2147483648;

/// A name that was read: where it ends, and how many bytes it has.
#[derive(Clone, Copy)]
pub struct Name {
    pub end: usize,
    pub size: usize,
}

/// A number that was read: where its digits end, and its value, in which 2,147,483,648 stands for all that is larger.
#[derive(Clone, Copy)]
pub struct Number {
    pub end: usize,
    pub value: u64,
}

/// A byte of a name, and the place behind all that it is written by.
#[derive(Clone, Copy)]
pub struct Letter {
    pub byte: u8,
    pub end: usize,
}

/// The place of the next sign: behind blanks.
pub fn skip_blanks(line: &[u8], at: usize) -> usize
    requires { at ≤ length line.now }
    ensures { Skipped line.now at result }
{
    for i in at..line.len() {
        if !is_blank(line[i]) {
            return i;
        }
    }
    line.len()
}

/// The end of a sign whose bytes stand at a place, with nothing between them.
pub fn spell(line: &[u8], at: usize, sign: &[u8]) -> Result<usize, usize>
    requires { at ≤ length line.now }
    ensures { spelt line.now result ≡ spellFrom sign.now (suc at) (drop at line.now) }
{
    let mut i = at;
    for b in sign {
        if line.len() <= i {
            return Err(i);
        }
        if line[i] != *b {
            return Err(i);
        }
        i += 1;
    }
    Ok(i)
}

/// The value of the hex digit at a place.
fn hex_at(line: &[u8], at: usize) -> Result<u8, usize>
    ensures { HexAt line.now at result }
{
    if line.len() <= at {
        return Err(at);
    }
    match hex_of(line[at]) {
        Some(h) => Ok(h),
        None => Err(at),
    }
}

/// The byte of a name that is written as a backslash and two hex digits.
fn escape_at(line: &[u8], at: usize) -> Result<Letter, usize>
    requires within { at < length line.now }
    requires backslash { get_or line.now at 0 ≡ 92 }
    ensures { Escaped line.now at result }
{
    let high = hex_at(line, at + 1)?;
    let low = hex_at(line, at + 2)?;
    Ok(Letter {
        byte: high * 16 + low,
        end: at + 3,
    })
}

/// What a name goes on with at a place, if it goes on.
pub fn letter_at(line: &[u8], at: usize) -> Result<Option<Letter>, usize>
    requires { at ≤ length line.now }
    ensures { Goes line.now at result }
{
    if at == line.len() {
        return Ok(None);
    }
    let byte = line[at];
    if is_plain(byte) {
        return Ok(Some(Letter { byte, end: at + 1 }));
    }
    if byte != b'\\' {
        return Ok(None);
    }
    let letter = escape_at(line, at)?;
    Ok(Some(letter))
}

/// Reads the name that begins at a place; its bytes go to the front of a buffer, as far as that goes.
pub fn scan_name(line: &[u8], at: usize, dst: &mut [u8]) -> Result<Name, usize>
    requires { at ≤ length line.now }
    ensures { NameScanned line.now at dst.old dst.new result }
{
    let mut end = at;
    let mut size = 0;
    while let Some(letter) = letter_at(line, end)? {
        if size < dst.len() {
            dst[size] = letter.byte;
        }
        end = letter.end;
        size += 1;
    }
    Ok(Name { end, size })
}

/// The value of the digit at a place, if there is one.
#[tactic(auto, unfolding(rules::specs::Grammar::isDigit))]
fn digit_at(line: &[u8], at: usize) -> Option<u64>
    ensures { DigitAt line.now at result }
{
    if line.len() <= at {
        return None;
    }
    let b = line[at];
    if !b.is_ascii_digit() {
        return None;
    }
    Some(u64::from(b - b'0'))
}

/// Reads the digits that begin at a place.
pub fn scan_digits(line: &[u8], at: usize) -> Result<Number, usize>
    requires { at ≤ length line.now }
    ensures { NumberScanned line.now at result }
{
    let Some(mut value) = digit_at(line, at) else {
        return Err(at);
    };
    let mut end = at + 1;
    while let Some(d) = digit_at(line, end) {
        value = (value * 10 + d).min(CAP);
        end += 1;
    }
    Ok(Number { end, value })
}
