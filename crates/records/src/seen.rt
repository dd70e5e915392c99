//! What one record says, and the record that says it. No other code looks at word 0 of a record: it holds the kind, and the length of the part that the
//! record begins.
ghost use Rattle.std.specs.Prelude.{◌≡◌, [], ◌∷◌, ◌<◌};
ghost use Rattle.rules.specs.Writing.{rec, head, kindIn, lengthIn};
ghost use Rattle.records.specs.Cut.{fit};
ghost use Rattle.records.specs.Views.{plain, pick, boundTable, schemeTable, otherTable, shape_of, viewAt, longAt};
ghost use Rattle.records.specs.Views.{toldWords, recOpen, recFree, recFactor, recBound, kindOfBasic, bareOf, recOf};

use super::{Atom, Basic, Open, View, Words};

// The view, where the word that the record doesn't use is 0.
fn plain_one(c: u32, v: View) -> View
    ensures { result ≡ plain (c ∷ []) v }
{
    if c == 0 { v } else { View::Bad }
}

// Where the two words that it doesn't use are 0.
fn plain_two(b: u32, c: u32, v: View) -> View
    ensures { result ≡ plain (b ∷ c ∷ []) v }
{
    if b == 0 { plain_one(c, v) } else { View::Bad }
}

// Where the three are 0.
fn plain_three(a: u32, b: u32, c: u32, v: View) -> View
    ensures { result ≡ plain (a ∷ b ∷ c ∷ []) v }
{
    if a == 0 {
        plain_two(b, c, v)
    } else {
        View::Bad
    }
}

// What b says of a bound: 0 a name, 1 an index.
fn bound_shape(a: u32, b: u32, c: u32) -> View
    ensures { result ≡ pick b (boundTable a c) }
{
    match b {
        0 => plain_one(c, View::Bound(Open::Var(a))),
        1 => plain_one(c, View::Bound(Open::Quant(a))),
        _ => View::Bad,
    }
}

// What b says of a scheme: 1 if it is concrete, and then its count is 0.
fn scheme_shape(a: u32, b: u32) -> View
    ensures { result ≡ pick b (schemeTable a) }
{
    match b {
        0 => View::Scheme(a),
        1 => plain_one(a, View::Concrete),
        _ => View::Bad,
    }
}

// The kinds that begin no type.
fn other_shape(kind: u32, a: u32, b: u32, c: u32) -> View
    ensures { result ≡ pick kind (otherTable a b c) }
{
    match kind {
        9 => plain_two(b, c, View::Field(a)),
        11 => View::Factor(Atom::Free(Open::Var(a)), b, c),
        12 => View::Factor(Atom::Free(Open::Par(a)), b, c),
        13 => View::Factor(Atom::Base(a), b, c),
        15 => View::Factor(Atom::Free(Open::Quant(a)), b, c),
        20 => plain_three(a, b, c, View::Equal),
        21 => plain_three(a, b, c, View::IsDim),
        22 => plain_three(a, b, c, View::IsScalar),
        23 => plain_two(b, c, View::HasField(a)),
        24 => plain_two(b, c, View::Binding(a)),
        25 => bound_shape(a, b, c),
        26 => plain_one(c, scheme_shape(a, b)),
        _ => View::Bad,
    }
}

// The two halves of word 0, and word 0 of both; a length that doesn't fit is left out.
fn kind_in(w: u32) -> u32
    ensures { result ≡ kindIn w }
{
    w % 65536
}

fn length_in(w: u32) -> u32
    ensures { result ≡ lengthIn w }
{
    w / 65536
}

fn head_of(kind: u32, n: usize) -> u32
    requires { kind < 65536 }
    ensures { result ≡ head kind (fit n) }
{
    if n <= 65535 {
        return kind + 65536 * (n as u32);
    }
    kind
}

// What the words of a record say.
fn shape(kind: u32, a: u32, b: u32, c: u32) -> View
    ensures { result ≡ shape_of kind a b c }
{
    match kind {
        1 => plain_two(b, c, View::Opened(Open::Var(a))),
        2 => plain_two(b, c, View::Opened(Open::Par(a))),
        14 => plain_two(b, c, View::Opened(Open::Quant(a))),
        3 => plain_two(b, c, View::Dim(a)),
        4 => plain_three(a, b, c, View::Basic(Basic::Boolean)),
        5 => plain_three(a, b, c, View::Basic(Basic::Text)),
        6 => plain_three(a, b, c, View::Basic(Basic::Datetime)),
        7 => plain_two(b, c, View::Function(a)),
        8 => View::Struct(a, b, c),
        10 => plain_three(a, b, c, View::List),
        _ => other_shape(kind, a, b, c),
    }
}

/// What the record at a place says, Bad where there is none.
pub fn view_at(s: &[u32], at: usize) -> View
    ensures { result ≡ viewAt s.now at }
{
    if s.len() / 4 <= at {
        return View::Bad;
    }
    let i = at * 4;
    shape(kind_in(s[i]), s[i + 1], s[i + 2], s[i + 3])
}

/// How long the part is that the record at a place begins, 0 where there is none.
pub fn length_at(s: &[u32], at: usize) -> usize
    ensures { result ≡ longAt s.now at }
{
    if s.len() / 4 <= at {
        return 0;
    }
    length_in(s[at * 4]) as usize
}

fn open_words(o: Open) -> Words
    ensures { toldWords result ≡ recOpen o }
{
    match o {
        Open::Var(x) => Words {
            kind: 1,
            a: x,
            b: 0,
            c: 0,
        },
        Open::Quant(i) => Words {
            kind: 14,
            a: i,
            b: 0,
            c: 0,
        },
        Open::Par(x) => Words {
            kind: 2,
            a: x,
            b: 0,
            c: 0,
        },
    }
}

fn free_words(o: Open, num: u32, den: u32) -> Words
    ensures { toldWords result ≡ recFree o num den }
{
    match o {
        Open::Var(x) => Words {
            kind: 11,
            a: x,
            b: num,
            c: den,
        },
        Open::Quant(i) => Words {
            kind: 15,
            a: i,
            b: num,
            c: den,
        },
        Open::Par(x) => Words {
            kind: 12,
            a: x,
            b: num,
            c: den,
        },
    }
}

fn factor_words(f: Atom, num: u32, den: u32) -> Words
    ensures { toldWords result ≡ recFactor f num den }
{
    match f {
        Atom::Free(o) => free_words(o, num, den),
        Atom::Base(x) => Words {
            kind: 13,
            a: x,
            b: num,
            c: den,
        },
    }
}

fn basic_kind(b: Basic) -> u32
    ensures { result ≡ kindOfBasic b }
{
    match b {
        Basic::Boolean => 4,
        Basic::Text => 5,
        Basic::Datetime => 6,
    }
}

// A bound is a name, or the index of a quantified variable.
fn bound_words(o: Open) -> Words
    ensures { toldWords result ≡ recBound o }
{
    match o {
        Open::Var(x) => Words {
            kind: 25,
            a: x,
            b: 0,
            c: 0,
        },
        Open::Quant(i) => Words {
            kind: 25,
            a: i,
            b: 1,
            c: 0,
        },
        Open::Par(x) => Words {
            kind: 25,
            a: x,
            b: 0,
            c: 0,
        },
    }
}

fn lone(kind: u32, a: u32) -> Words
    ensures { toldWords result ≡ rec kind a 0 0 }
{
    Words {
        kind,
        a,
        b: 0,
        c: 0,
    }
}

/// The record that says v, with its kind alone in word 0.
pub fn words_of(v: View) -> Words
    ensures { toldWords result ≡ bareOf v }
{
    match v {
        View::Opened(o) => open_words(o),
        View::Basic(b) => lone(basic_kind(b), 0),
        View::Dim(n) => lone(3, n),
        View::Function(n) => lone(7, n),
        View::Struct(x, n, m) => Words {
            kind: 8,
            a: x,
            b: n,
            c: m,
        },
        View::List => lone(10, 0),
        View::Field(x) => lone(9, x),
        View::Factor(f, num, den) => factor_words(f, num, den),
        View::Equal => lone(20, 0),
        View::IsDim => lone(21, 0),
        View::IsScalar => lone(22, 0),
        View::HasField(x) => lone(23, x),
        View::Binding(x) => lone(24, x),
        View::Bound(o) => bound_words(o),
        View::Scheme(n) => lone(26, n),
        View::Concrete => Words {
            kind: 26,
            a: 0,
            b: 1,
            c: 0,
        },
        View::Bad => lone(0, 0),
    }
}

/// The record that says v and begins a part of n records. A length past 65,535 is left out.
pub fn record_of(v: View, n: usize) -> Words
    ensures { toldWords result ≡ recOf v (fit n) }
{
    let w = words_of(v);
    let kind = head_of(w.kind, n);
    Words { kind, ..w }
}
