//! Types as text.
ghost use Rattle.std.specs.Prelude.{true, ◌++◌};
ghost use Rattle.rules.specs.TextWriting.{basicText, tyText};
ghost use Rattle.rules.specs.Trees as tree;
ghost use Rattle.records.specs.Holds.{basicOf};
ghost use Rattle.text_spell.specs.Sinks.{Puts};
ghost use Rattle.text_write.specs.Parts.{between, bracket, comma, fromFields, fromTys, head, label, name_of};

use super::factors::{put_dimension, put_held, put_open};
use names::tables::NameTable;
use records::Basic;
use text_spell::sink::Sink;
use types::{Fields, Shape, Type, Types};

/// Puts a basic type.
fn put_basic<S: Sink>(basic: Basic, to: &mut S) -> Result<(), S::Error>
    ensures { Puts (S.place to.old) (basicText (basicOf basic)) result (S.place to.new) }
{
    match basic {
        Basic::Boolean => to.put(b"Bool"),
        Basic::Text => to.put(b"String"),
        Basic::Datetime => to.put(b"DateTime"),
    }
}

/// Puts what stands in front of a type or a field.
fn put_comma<S: Sink>(first: bool, to: &mut S) -> Result<(), S::Error>
    ensures { Puts (S.place to.old) (comma first) result (S.place to.new) }
{
    if first { Ok(()) } else { to.put(b", ") }
}

/// Puts a bracket if there are any parts.
#[tactic(auto, using(crate::proofs::Parts::brackets))]
fn put_if<S: Sink>(n: u32, b: u8, to: &mut S) -> Result<(), S::Error>
    ensures { Puts (S.place to.old) (bracket n b) result (S.place to.new) }
{
    if n == 0 { Ok(()) } else { to.put(&[b]) }
}

/// Puts a field's name and its colon, behind others or not.
fn put_label<S: Sink>(names: NameTable, first: bool, x: u32, to: &mut S) -> Result<(), S::Error>
    ensures { Puts (S.place to.old) (label first (name_of names.entry.pool.now names.entry.table.now x)) result (S.place to.new) }
{
    put_comma(first, to)?;
    put_held(names, x, to)?;
    to.put(b": ")
}

/// Puts a structure's name, and a bracket if it has parameters.
fn put_head<S: Sink>(names: NameTable, x: u32, n: u32, to: &mut S) -> Result<(), S::Error>
    ensures { Puts (S.place to.old) (head (name_of names.entry.pool.now names.entry.table.now x) n) result (S.place to.new) }
{
    to.put(b"@")?;
    put_held(names, x, to)?;
    put_if(n, b'<', to)
}

/// Puts what stands between a structure's parameters and its fields.
fn put_between<S: Sink>(n: u32, m: u32, to: &mut S) -> Result<(), S::Error>
    ensures { Puts (S.place to.old) (between n m) result (S.place to.new) }
{
    put_if(n, b'>', to)?;
    put_if(m, b'{', to)
}

/// Puts a type.
#[cycle(types)]
pub fn write_type<S: Sink>(names: NameTable, t: Type, to: &mut S) -> Result<(), S::Error>
    ensures { Puts (S.place to.old) (tyText (name_of names.entry.pool.now names.entry.table.now) t.entry.tree.0) result (S.place to.new) }
{
    match t.shape() {
        Shape::Open(o) => put_open(names, o, to),
        Shape::Basic(basic) => put_basic(basic, to),
        Shape::Dimension(factors) => put_dimension(names, factors, to),
        Shape::Function(parameters, returned) => write_function(names, parameters, returned, to),
        Shape::Struct(x, arguments, fields) => write_struct(names, x, arguments, fields, to),
        Shape::List(element) => write_list(names, element, to),
    }
}

/// Puts a function's type.
#[cycle(types)]
fn write_function<S: Sink>(
    names: NameTable,
    parameters: Types,
    returned: Type,
    to: &mut S,
) -> Result<(), S::Error>
    ensures { Puts (S.place to.old)
        (tyText (name_of names.entry.pool.now names.entry.table.now) (tree.fn parameters.entry.trees.0 returned.entry.tree.0))
        result (S.place to.new) }
{
    to.put(b"Fn[(")?;
    write_types(names, parameters, true, to)?;
    to.put(b") -> ")?;
    write_type(names, returned, to)?;
    to.put(b"]")
}

/// Puts a structure: its name, its parameters, its fields, each with its brackets.
#[cycle(types)]
fn write_struct<S: Sink>(
    names: NameTable,
    x: u32,
    arguments: Types,
    fields: Fields,
    to: &mut S,
) -> Result<(), S::Error>
    ensures { let named = name_of names.entry.pool.now names.entry.table.now in let n = arguments.entry.count in let m = fields.entry.count in
        Puts (S.place to.old)
        (head (named x) n ++ (fromTys true named arguments.entry.trees.0 ++ (between n m ++ (fromFields true named fields.entry.trees.0 ++ bracket m 125))))
        result (S.place to.new) }
{
    put_head(names, x, arguments.count, to)?;
    write_types(names, arguments, true, to)?;
    put_between(arguments.count, fields.count, to)?;
    write_fields(names, fields, true, to)?;
    put_if(fields.count, b'}', to)
}

/// Puts a list's type.
#[cycle(types)]
fn write_list<S: Sink>(names: NameTable, element: Type, to: &mut S) -> Result<(), S::Error>
    ensures { Puts (S.place to.old) (tyText (name_of names.entry.pool.now names.entry.table.now) (tree.list element.entry.tree.0)) result (S.place to.new) }
{
    to.put(b"List<")?;
    write_type(names, element, to)?;
    to.put(b">")
}

/// Puts types, behind others or not.
#[cycle(types)]
fn write_types<S: Sink>(
    names: NameTable,
    types: Types,
    first: bool,
    to: &mut S,
) -> Result<(), S::Error>
    ensures { Puts (S.place to.old) (fromTys first (name_of names.entry.pool.now names.entry.table.now) types.entry.trees.0) result (S.place to.new) }
{
    let Some((t, rest)) = types.split_first() else {
        return Ok(());
    };
    put_comma(first, to)?;
    write_type(names, t, to)?;
    write_types(names, rest, false, to)
}

/// Puts fields, behind others or not.
#[cycle(types)]
fn write_fields<S: Sink>(
    names: NameTable,
    fields: Fields,
    first: bool,
    to: &mut S,
) -> Result<(), S::Error>
    ensures { Puts (S.place to.old) (fromFields first (name_of names.entry.pool.now names.entry.table.now) fields.entry.trees.0) result (S.place to.new) }
{
    let Some((x, t, rest)) = fields.split_first() else {
        return Ok(());
    };
    put_label(names, first, x, to)?;
    write_type(names, t, to)?;
    write_fields(names, rest, false, to)
}
