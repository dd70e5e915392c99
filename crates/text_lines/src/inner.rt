//! A line: its constraint's record is counted at its first sign, and written when its types are there.
ghost use Rattle.std.specs.Prelude.{◌≡◌, ◌<◌, Ok, length};
ghost use Rattle.rules.specs.Grammar.{ascii, spell, typed, hasField, constraint, signsAt};
ghost use Rattle.laws.specs.NameTable.{Good};
ghost use Rattle.text_grammar.specs.declared.inner.Point.TheVariants as point;
ghost use Rattle.text_grammar.specs.Points.{PointIn, Reads, Any};
ghost use Rattle.text_names.specs.Effects.{lent, Room, Ready, Done};
ghost use Rattle.text_types.specs.Entering.{lentBy, ReadyIn, SameBuffers};
ghost use Rattle.text_lines.specs.Statements.{end_of, SaysScalar, stated, meantOf, LineTold, LineDone, ConEntered, LineEntered};
ghost use Rattle.text_lines.specs.Answers.{standIn, countIn, answer_of};

use records::View;
use rules::{NESTED, Refusal};
use text_grammar::inner::{Point, byte_at, mark, next_is, next_sign, refuse, sign};
use text_names::inner::naming::read_named;
use text_names::inner::{At, Reached, Stand, Tally, count, place_of, put_head};
use text_types::inner::Buffers;
use text_types::inner::nested::enter_type;

/// What a line that was read brought a sheet to, and how many constraints the line had: 0 or 1.
#[derive(Clone, Copy)]
pub struct Line {
    pub tally: Tally,
    pub constraints: usize,
}

/// Where a line is read to and how the sheet stands then, and how many constraints the line had.
#[derive(Clone, Copy)]
pub struct Stated {
    pub end: Reached,
    pub count: usize,
}

/// The quote right behind a name.
fn quote(line: &[u8], p: Point) -> Point
    requires { PointIn line.now p }
    ensures { Reads line.now p (spell (ascii "\"")) Any result }
{
    let Point::At(i) = p else {
        return p;
    };
    if i < line.len() && line[i] == b'"' {
        Point::At(i + 1)
    } else {
        Point::Bad(i)
    }
}

/// The end of a line; the first byte of what else follows fits nothing.
fn end_at(line: &[u8], p: Point) -> Point
    requires { PointIn line.now p }
    ensures { end_of line.now p result }
{
    match p {
        Point::At(i) if i < line.len() => Point::Bad(i),
        _ => p,
    }
}

/// Is this byte "=", and did a dimension begin at q?
fn says_scalar(line: &[u8], q: Point, b: u8) -> bool
    requires { PointIn line.now q }
    ensures { SaysScalar line.now q b result }
{
    b == b'=' && next_is(line, q, b'[')
}

/// A type, and what the line says of it: that it equals another, is a dimension, or is scalar.
fn enter_typed(line: &[u8], from: Reached, buffers: &mut Buffers) -> Reached
    requires { ReadyIn line.now from buffers.old }
    ensures done { ConEntered line.now typed from buffers.old result buffers.new }
    ensures same { SameBuffers buffers.old buffers.new }
{
    let q = next_sign(line, from.at);
    let stand = count(1, place_of(q), from.stand);
    let l = enter_type(line, Reached { at: q, stand }, NESTED, buffers);
    let e = next_sign(line, l.at);
    let b = byte_at(line, e);
    if b == b'~' {
        let at = mark(line, e, b'~');
        let t = enter_type(line, Reached { at, ..l }, NESTED, buffers);
        put_head(View::Equal, from.stand, t.stand, buffers.dst);
        return t;
    }
    if b == b':' {
        let m = mark(line, e, b':');
        let at = sign(line, m, b"DType");
        put_head(View::IsDim, from.stand, l.stand, buffers.dst);
        return Reached { at, ..l };
    }
    if says_scalar(line, q, b) {
        let m = mark(line, e, b'=');
        let at = sign(line, m, b"Scalar");
        put_head(View::IsScalar, from.stand, l.stand, buffers.dst);
        return Reached { at, ..l };
    }
    let at = refuse(e);
    Reached { at, ..l }
}

/// A field that a type has.
fn enter_has_field(line: &[u8], from: Reached, buffers: &mut Buffers) -> Reached
    requires { ReadyIn line.now from buffers.old }
    ensures done { ConEntered line.now hasField from buffers.old result buffers.new }
    ensures same { SameBuffers buffers.old buffers.new }
{
    let q = next_sign(line, from.at);
    let stand = count(1, place_of(q), from.stand);
    let a = sign(line, q, b"HasField");
    let b = mark(line, a, b'(');
    let l = enter_type(line, Reached { at: b, stand }, NESTED, buffers);
    let d = mark(line, l.at, b',');
    let e = mark(line, d, b'"');
    let x = read_named(line, Reached { at: e, ..l }, buffers.pool, buffers.table);
    let g = quote(line, x.end.at);
    let f = mark(line, g, b',');
    let t = enter_type(line, Reached { at: f, ..x.end }, NESTED, buffers);
    let at = mark(line, t.at, b')');
    put_head(View::HasField(x.number), from.stand, t.stand, buffers.dst);
    Reached { at, ..t }
}

/// What a line states, by its first byte.
fn enter_stated(line: &[u8], from: Reached, buffers: &mut Buffers) -> Reached
    requires { ReadyIn line.now from buffers.old }
    ensures done { ConEntered line.now stated from buffers.old result buffers.new }
    ensures same { SameBuffers buffers.old buffers.new }
{
    if next_is(line, from.at, b'H') {
        return enter_has_field(line, from, buffers);
    }
    enter_typed(line, from, buffers)
}

/// A constraint up to the end of its line.
fn enter_constraint(line: &[u8], from: Reached, buffers: &mut Buffers) -> Reached
    requires { ReadyIn line.now from buffers.old }
    ensures done { LineEntered line.now constraint 1 from buffers.old result buffers.new }
    ensures same { SameBuffers buffers.old buffers.new }
{
    let c = enter_stated(line, from, buffers);
    let e = next_sign(line, c.at);
    let at = end_at(line, e);
    Reached { at, ..c }
}

/// A line with a first sign: a comment or a constraint.
fn enter_from(line: &[u8], i: usize, stand: Stand, buffers: &mut Buffers) -> Stated
    requires within { i < length line.now }
    requires ready { Ready line.now (point.At i) buffers.old.pool.now buffers.old.table.now stand }
    ensures done { Done line.now signsAt meantOf (LineTold result.count) (point.At i) (lentBy buffers.old stand)
        result.end.at (lentBy buffers.new result.end.stand) }
    ensures same { SameBuffers buffers.old buffers.new }
{
    let p = Point::At(i);
    if next_is(line, p, b'-') {
        let at = sign(line, p, b"--");
        return Stated {
            end: Reached { at, stand },
            count: 0,
        };
    }
    let end = enter_constraint(line, Reached { at: p, stand }, buffers);
    Stated { end, count: 1 }
}

/// A line from its first sign, if it has one.
fn enter_signs(line: &[u8], from: Reached, buffers: &mut Buffers) -> Stated
    requires { ReadyIn line.now from buffers.old }
    ensures done { LineEntered line.now signsAt result.count from buffers.old result.end buffers.new }
    ensures same { SameBuffers buffers.old buffers.new }
{
    match from.at {
        Point::At(i) if i < line.len() => enter_from(line, i, from.stand, buffers),
        _ => Stated {
            end: from,
            count: 0,
        },
    }
}

/// Outside the grammar 12, whatever was refused; else how the sheet stands.
fn answer(end: Reached, constraints: usize) -> Result<Line, At>
    ensures { result ≡ answer_of end.at end.stand constraints }
{
    if let Point::Bad(at) = end.at {
        return Err(At {
            why: Refusal::NotGrammar,
            at,
        });
    }
    let tally = end.stand?;
    Ok(Line { tally, constraints })
}

/// Reads a line and enters what it says into a sheet that has come to a tally. Of a line that is refused, names may have gone into the table and
/// records into the buffer: the sheet puts back what counts.
pub fn read_line(
    line: &[u8],
    tally: Tally,
    pool: &mut [u8],
    table: &mut [u32],
    dst: &mut [u32],
) -> Result<Line, At>
    requires good { Good pool.old table.old }
    requires room { Room table.old tally.names tally.records }
    ensures { LineDone line.now (lent pool.old table.old dst.old (Ok tally)) (lent pool.new table.new dst.new (standIn result)) (countIn result) }
{
    let at = next_sign(line, Point::At(0));
    let stand = Ok(tally);
    let mut buffers = Buffers { pool, table, dst };
    let stated = enter_signs(line, Reached { at, stand }, &mut buffers);
    answer(stated.end, stated.count)
}
