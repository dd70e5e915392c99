//! Types, nested at most d deep: what each function reads it enters at once. Each goes on from where the one before ended.
ghost use Rattle.rules.specs.Grammar.{type, tys, function, listed, fields, structure};
ghost use Rattle.text_grammar.specs.Types.{paramsThere, typesThere, fieldsThere};
ghost use Rattle.text_types.specs.Entering.{ReadyIn, SameBuffers};
ghost use Rattle.text_types.specs.Parts.{TypeEntered, TypesEntered};
ghost use Rattle.text_types.specs.Members.{FieldsEntered, FieldEntered};

use super::leaves::enter_leaf;
use super::{Buffers, one_more, pass_if, rises, too_deep};
use records::View;
use text_grammar::inner::{byte_at, mark, next_is, next_sign, sign};
use text_names::inner::naming::read_named;
use text_names::inner::{Reached, count, place_of, put_head};

/// Types or fields in a row: where they end, how the sheet stands then, and how many they are.
#[derive(Clone, Copy)]
pub struct Row {
    pub end: Reached,
    pub count: u32,
}

/// Where a field may begin, how the sheet stands there, and the name that its own must come after, if there is one.
#[derive(Clone, Copy)]
pub struct FieldStart {
    pub here: Reached,
    pub before: Option<u32>,
}

/// The type that begins here, and its records.
#[cycle(types)]
pub fn enter_type(line: &[u8], from: Reached, d: usize, buffers: &mut Buffers) -> Reached
    requires { ReadyIn line.now from buffers.old }
    ensures done { TypeEntered line.now (type d) from buffers.old result buffers.new }
    ensures same { SameBuffers buffers.old buffers.new }
{
    let q = next_sign(line, from.at);
    if d == 0 {
        return too_deep(line, q, from.stand);
    }
    let here = Reached { at: q, ..from };
    match byte_at(line, q) {
        b'F' => enter_function(line, here, d - 1, buffers),
        b'L' => enter_list(line, here, d - 1, buffers),
        b'@' => enter_structure(line, here, d - 1, buffers),
        _ => enter_leaf(line, here, buffers.pool, buffers.table, buffers.dst),
    }
}

/// A list of types nested at most d deep.
#[cycle(types)]
fn enter_list(line: &[u8], from: Reached, d: usize, buffers: &mut Buffers) -> Reached
    requires { ReadyIn line.now from buffers.old }
    ensures done { TypeEntered line.now (listed (type d)) from buffers.old result buffers.new }
    ensures same { SameBuffers buffers.old buffers.new }
{
    let q = next_sign(line, from.at);
    let now = count(1, place_of(q), from.stand);
    let a = sign(line, q, b"List");
    let b = mark(line, a, b'<');
    let t = enter_type(line, Reached { at: b, stand: now }, d, buffers);
    let at = mark(line, t.at, b'>');
    put_head(View::List, from.stand, t.stand, buffers.dst);
    Reached { at, ..t }
}

/// A function from and to types nested at most d deep.
#[cycle(types)]
fn enter_function(line: &[u8], from: Reached, d: usize, buffers: &mut Buffers) -> Reached
    requires { ReadyIn line.now from buffers.old }
    ensures done { TypeEntered line.now (function (type d)) from buffers.old result buffers.new }
    ensures same { SameBuffers buffers.old buffers.new }
{
    let q = next_sign(line, from.at);
    let now = count(1, place_of(q), from.stand);
    let a = sign(line, q, b"Fn");
    let b = mark(line, a, b'[');
    let c = mark(line, b, b'(');
    let ps = enter_params(line, Reached { at: c, stand: now }, d, buffers);
    let f = mark(line, ps.end.at, b')');
    let g = sign(line, f, b"->");
    let t = enter_type(line, Reached { at: g, ..ps.end }, d, buffers);
    let at = mark(line, t.at, b']');
    put_head(View::Function(ps.count), from.stand, t.stand, buffers.dst);
    Reached { at, ..t }
}

/// The parameters of a function, if it has any.
#[cycle(types)]
fn enter_params(line: &[u8], from: Reached, d: usize, buffers: &mut Buffers) -> Row
    requires { ReadyIn line.now from buffers.old }
    ensures done { TypesEntered line.now (paramsThere (type d)) from buffers.old result buffers.new }
    ensures same { SameBuffers buffers.old buffers.new }
{
    if next_is(line, from.at, b')') {
        return Row {
            end: from,
            count: 0,
        };
    }
    enter_types(line, from, d, buffers)
}

/// One type or more, each further one behind a comma.
#[cycle(types)]
fn enter_types(line: &[u8], from: Reached, d: usize, buffers: &mut Buffers) -> Row
    requires { ReadyIn line.now from buffers.old }
    ensures done { TypesEntered line.now (tys (type d)) from buffers.old result buffers.new }
    ensures same { SameBuffers buffers.old buffers.new }
{
    let first = enter_type(line, from, d, buffers);
    let mut end = first;
    let mut n = 1;
    while next_is(line, end.at, b',') {
        let a = mark(line, end.at, b',');
        end = enter_type(line, Reached { at: a, ..end }, d, buffers);
        n = one_more(n);
    }
    Row { end, count: n }
}

/// A structure with arguments and fields nested at most d deep.
#[cycle(types)]
fn enter_structure(line: &[u8], from: Reached, d: usize, buffers: &mut Buffers) -> Reached
    requires { ReadyIn line.now from buffers.old }
    ensures done { TypeEntered line.now (structure (type d)) from buffers.old result buffers.new }
    ensures same { SameBuffers buffers.old buffers.new }
{
    let q = next_sign(line, from.at);
    let now = count(1, place_of(q), from.stand);
    let a = mark(line, q, b'@');
    let x = read_named(
        line,
        Reached { at: a, stand: now },
        buffers.pool,
        buffers.table,
    );
    let ts = enter_arguments(line, x.end, d, buffers);
    let fs = enter_members(line, ts.end, d, buffers);
    let view = View::Struct(x.number, ts.count, fs.count);
    put_head(view, from.stand, fs.end.stand, buffers.dst);
    fs.end
}

/// The arguments of a structure, if it has any.
#[cycle(types)]
fn enter_arguments(line: &[u8], from: Reached, d: usize, buffers: &mut Buffers) -> Row
    requires { ReadyIn line.now from buffers.old }
    ensures done { TypesEntered line.now (typesThere (type d)) from buffers.old result buffers.new }
    ensures same { SameBuffers buffers.old buffers.new }
{
    if !next_is(line, from.at, b'<') {
        return Row {
            end: from,
            count: 0,
        };
    }
    let a = mark(line, from.at, b'<');
    let ts = enter_types(line, Reached { at: a, ..from }, d, buffers);
    let at = mark(line, ts.end.at, b'>');
    let end = Reached { at, ..ts.end };
    Row { end, ..ts }
}

/// The fields of a structure, if it has any.
#[cycle(types)]
fn enter_members(line: &[u8], from: Reached, d: usize, buffers: &mut Buffers) -> Row
    requires { ReadyIn line.now from buffers.old }
    ensures done { FieldsEntered line.now (fieldsThere (type d)) from buffers.old result buffers.new }
    ensures same { SameBuffers buffers.old buffers.new }
{
    if !next_is(line, from.at, b'{') {
        return Row {
            end: from,
            count: 0,
        };
    }
    let a = mark(line, from.at, b'{');
    let fs = enter_fields(line, Reached { at: a, ..from }, d, buffers);
    let at = mark(line, fs.end.at, b'}');
    let end = Reached { at, ..fs.end };
    Row { end, ..fs }
}

/// One field or more, each further one behind a comma.
#[cycle(types)]
fn enter_fields(line: &[u8], from: Reached, d: usize, buffers: &mut Buffers) -> Row
    requires { ReadyIn line.now from buffers.old }
    ensures done { FieldsEntered line.now (fields (type d)) from buffers.old result buffers.new }
    ensures same { SameBuffers buffers.old buffers.new }
{
    let start = FieldStart {
        here: from,
        before: None,
    };
    let first = enter_field(line, start, d, buffers);
    let mut next = first;
    let mut n = 1;
    while next_is(line, next.here.at, b',') {
        let a = mark(line, next.here.at, b',');
        let here = Reached { at: a, ..next.here };
        let start = FieldStart { here, ..next };
        next = enter_field(line, start, d, buffers);
        n = one_more(n);
    }
    Row {
        end: next.here,
        count: n,
    }
}

/// A field, up to where the next may begin: its name must rise, its record is counted at the name.
#[cycle(types)]
fn enter_field(line: &[u8], from: FieldStart, d: usize, buffers: &mut Buffers) -> FieldStart
    requires { ReadyIn line.now from.here buffers.old }
    ensures done { FieldEntered line.now (type d) from buffers.old result buffers.new }
    ensures same { SameBuffers buffers.old buffers.new }
{
    let q = next_sign(line, from.here.at);
    let here = Reached { at: q, ..from.here };
    let x = read_named(line, here, buffers.pool, buffers.table);
    let at = place_of(q);
    let risen = rises(buffers, from.before, x.number);
    let tested = pass_if(risen, at, x.end.stand);
    let now = count(1, at, tested);
    let c = mark(line, x.end.at, b':');
    let end = enter_type(line, Reached { at: c, stand: now }, d, buffers);
    put_head(View::Field(x.number), tested, end.stand, buffers.dst);
    FieldStart {
        here: end,
        before: Some(x.number),
    }
}
