//! Each rule goes on from a point of a line: what was refused stays refused, and behind a type nested 65 deep everything passes.
ghost use Rattle.std.specs.Prelude.{◌≡◌, ℕ, ◌≤◌, ◌<◌, pos};
ghost use Rattle.rules.specs.Exponents.{lowest, top};
ghost use Rattle.exponents.specs.Answers.{expOf};
ghost use Rattle.rules.specs.Grammar.{column, digits, name, power};
ghost use Rattle.text_grammar.specs.Points.{PointIn, Reads, MarkRead, beginsAt, columnAt, Any, Same, Capped};
ghost use Rattle.text_grammar.specs.Factors.{byte_of, refusedFrom};
ghost use Rattle.text_grammar.specs.Powers.{minusThere, denominatorThere, Typed};
ghost use Rattle.text_grammar.specs.Signs.{spelled};

use exponents::Exponent;
use exponents::inner::quotient_of;
use text_scan::inner::{scan_digits, scan_name, skip_blanks, spell};

/// How far a line is read: to a place; to a type nested 65 deep, behind which nothing is looked at; or, refused, to the place of the first
/// byte that fits nothing.
#[derive(Clone, Copy)]
pub enum Point {
    At(usize),
    Deep,
    Bad(usize),
}

/// Digits: where they end, and their number, in which 2,147,483,648 stands for all that is larger.
#[derive(Clone, Copy)]
pub struct Counted {
    pub end: Point,
    pub number: u64,
}

/// A minus that may stand there, and where it ends.
#[derive(Clone, Copy)]
pub struct Minus {
    pub end: Point,
    pub there: bool,
}

/// A power as it was typed: the points of its "^" and of its end, its numbers as digits have them.
#[derive(Clone, Copy)]
pub struct Power {
    pub sign: Point,
    pub end: Point,
    pub minus: bool,
    pub num: u64,
    pub den: u64,
}

/// The point where the next sign begins.
pub fn next_sign(line: &[u8], p: Point) -> Point
    requires { PointIn line.now p }
    ensures { Reads line.now p column (λ (c : ℕ). c ≡ columnAt result) result }
{
    let Point::At(at) = p else {
        return p;
    };
    Point::At(skip_blanks(line, at))
}

/// Does the next sign begin with this byte?
pub fn next_is(line: &[u8], p: Point, b: u8) -> bool
    requires { PointIn line.now p }
    ensures { result ≡ beginsAt line.now p b }
{
    let Point::At(at) = p else {
        return false;
    };
    let i = skip_blanks(line, at);
    i < line.len() && line[i] == b
}

/// A sign of one byte.
pub fn mark(line: &[u8], p: Point, b: u8) -> Point
    requires { PointIn line.now p }
    ensures { MarkRead line.now p b result }
{
    let Point::At(at) = p else {
        return p;
    };
    let i = skip_blanks(line, at);
    if i < line.len() && line[i] == b {
        Point::At(i + 1)
    } else {
        Point::Bad(i)
    }
}

/// A sign of several bytes, or a keyword.
pub fn sign(line: &[u8], p: Point, word: &[u8]) -> Point
    requires { PointIn line.now p }
    ensures { Reads line.now p (spelled word.now) Any result }
{
    let Point::At(at) = p else {
        return p;
    };
    match spell(line, skip_blanks(line, at), word) {
        Ok(end) => Point::At(end),
        Err(q) => Point::Bad(q),
    }
}

/// The name that begins right here.
pub fn read_name(line: &[u8], p: Point) -> Point
    requires { PointIn line.now p }
    ensures { Reads line.now p name Any result }
{
    let Point::At(at) = p else {
        return p;
    };
    match scan_name(line, at, &mut []) {
        Ok(name) => Point::At(name.end),
        Err(q) => Point::Bad(q),
    }
}

/// The byte at a point; 0 where there is none.
pub fn byte_at(line: &[u8], p: Point) -> u8
    ensures { result ≡ byte_of line.now p }
{
    match p {
        Point::At(i) if i < line.len() => line[i],
        _ => 0,
    }
}

/// Nothing fits here.
pub fn refuse(p: Point) -> Point
    ensures { result ≡ refusedFrom p }
{
    match p {
        Point::At(i) => Point::Bad(i),
        Point::Deep | Point::Bad(_) => p,
    }
}

/// Digits, as a number with a cap.
pub fn read_digits(line: &[u8], p: Point) -> Counted
    requires { PointIn line.now p }
    ensures { Reads line.now p digits (Capped result.number) result.end }
{
    let Point::At(at) = p else {
        return Counted { end: p, number: 0 };
    };
    match scan_digits(line, skip_blanks(line, at)) {
        Ok(n) => Counted {
            end: Point::At(n.end),
            number: n.value,
        },
        Err(q) => Counted {
            end: Point::Bad(q),
            number: 0,
        },
    }
}

/// A minus, if there is one.
fn read_minus(line: &[u8], p: Point) -> Minus
    requires { PointIn line.now p }
    ensures { Reads line.now p minusThere (Same result.there) result.end }
{
    if next_is(line, p, b'-') {
        let a = mark(line, p, b'-');
        return Minus {
            end: a,
            there: true,
        };
    }
    Minus {
        end: p,
        there: false,
    }
}

/// What stands behind "/", or 1.
fn read_denominator(line: &[u8], p: Point) -> Counted
    requires { PointIn line.now p }
    ensures { Reads line.now p denominatorThere (Capped result.number) result.end }
{
    if next_is(line, p, b'/') {
        let a = mark(line, p, b'/');
        return read_digits(line, a);
    }
    Counted { end: p, number: 1 }
}

/// A power.
pub fn read_power(line: &[u8], p: Point) -> Power
    requires { PointIn line.now p }
    ensures { Reads line.now p power (Typed result.sign result.minus result.num result.den) result.end }
{
    let s = next_sign(line, p);
    let a = mark(line, s, b'^');
    let b = mark(line, a, b'(');
    let m = read_minus(line, b);
    let c = m.end;
    let n = read_digits(line, c);
    let e = n.end;
    let d = read_denominator(line, e);
    let f = d.end;
    let end = mark(line, f, b')');
    Power {
        sign: s,
        end: end,
        minus: m.there,
        num: n.number,
        den: d.number,
    }
}

/// Two numbers in range, as a fraction in lowest terms.
pub fn lowest_of(num: u64, den: u64) -> Exponent
    requires { (num ≤ top) × (0 < den) × (den ≤ top) }
    ensures { expOf result ≡ lowest (pos num) den }
{
    match quotient_of(
        Exponent::from_words(num as u32, 1),
        Exponent::from_words(den as u32, 1),
    ) {
        Ok(e) => e,
        Err(_) => Exponent::ZERO,
    }
}
