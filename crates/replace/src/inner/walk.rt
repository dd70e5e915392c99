//! Replacing in types: each bound variable becomes its type, and bound types aren't replaced again.
ghost use Rattle.std.specs.Prelude.{◌≡◌, ◌+◌, ◌<◌, min};
ghost use Rattle.rules.specs.Trees.{dim};
ghost use Rattle.rules.specs.Writing.{writeProduct, writeTy};
ghost use Rattle.records.specs.Holds.{openOf};
ghost use Rattle.types.specs.Written.{Writes};
ghost use Rattle.replace.specs.Well.{GoodProduct, GoodTy};
ghost use Rattle.replace.specs.Leaves.{becomes, Leaves, LeavesParts, GoodParts, productBy, typeBy};

use super::dims::replace_factors;
use crate::substitution::Substitution;
use records::{Open, View};
use rules::Refusal;
use types::writer::Writer;
use types::{Fields, Product, Shape, Type, Types};

/// What stands one after another in a type: a function's parameters or a struct's arguments, or a struct's fields.
#[derive(Clone, Copy)]
pub enum Parts<'a> {
    Types(Types<'a>),
    Fields(Fields<'a>),
}

/// Writes an open name, or what it becomes.
fn replace_open(by: Substitution, o: Open, out: &mut Writer)
    ensures { Writes out.old out.new (writeTy (becomes by.entry.lent.0 (openOf o))) }
{
    match by.look_up(o) {
        Some(t) => out.copy(t),
        None => out.put(View::Opened(o), 1),
    }
}

/// Writes a product with its bound variables replaced. It stays a product even at power 1.
pub fn replace_product(by: Substitution, p: Product, out: &mut Writer) -> Result<(), Refusal>
    requires { GoodProduct by.names.pool.now by.names.table.now p.factors.0 }
    ensures { Leaves writeProduct out.old out.new result (productBy by.entry p.entry.factors.0) }
{
    let made = replace_factors(by, &p.value())?;
    out.product(&made);
    Ok(())
}

/// Writes a type that is a dimension: one variable to the power 1 becomes what it is bound to.
fn replace_dimension(by: Substitution, t: Type, p: Product, out: &mut Writer) -> Result<(), Refusal>
    requires is { dim p.factors.0 ≡ t.tree.0 }
    requires good { GoodProduct by.names.pool.now by.names.table.now p.factors.0 }
    ensures { Leaves writeTy out.old out.new result (typeBy by.entry t.entry.tree.0) }
{
    let Some(o) = p.alone() else {
        if by.touches_product(p) {
            return replace_product(by, p, out);
        }
        out.copy(t); // nothing in it is replaced
        return Ok(());
    };
    match by.look_up(o) {
        Some(bound) => out.copy(bound),
        None => out.copy(t),
    }
    Ok(())
}

/// Writes a type with its bound variables replaced.
#[cycle(replace)]
pub fn replace_type(by: Substitution, t: Type, out: &mut Writer) -> Result<(), Refusal>
    requires { GoodTy by.names.pool.now by.names.table.now t.tree.0 }
    ensures { Leaves writeTy out.old out.new result (typeBy by.entry t.entry.tree.0) }
{
    match t.shape() {
        Shape::Open(o) => {
            replace_open(by, o, out);
            Ok(())
        }
        Shape::Basic(_) => {
            out.copy(t);
            Ok(())
        }
        Shape::Dimension(p) => replace_dimension(by, t, p, out),
        Shape::Function(parameters, to) => {
            let start = out.reserve();
            replace_list(by, Parts::Types(parameters), out)?;
            replace_type(by, to, out)?;
            out.begin(start, View::Function(parameters.count));
            Ok(())
        }
        Shape::Struct(name, arguments, fields) => {
            let start = out.reserve();
            replace_list(by, Parts::Types(arguments), out)?;
            replace_list(by, Parts::Fields(fields), out)?;
            out.begin(start, View::Struct(name, arguments.count, fields.count));
            Ok(())
        }
        Shape::List(element) => {
            let start = out.reserve();
            replace_type(by, element, out)?;
            out.begin(start, View::List);
            Ok(())
        }
    }
}

/// Writes parameters, arguments or fields, one after another, with the bound variables of their types replaced.
#[cycle(replace)]
pub fn replace_list(by: Substitution, parts: Parts, out: &mut Writer) -> Result<(), Refusal>
    requires { GoodParts by.names.pool.now by.names.table.now parts }
    ensures { LeavesParts by.entry out.old out.new result parts.entry }
{
    match parts {
        Parts::Types(types) => {
            let Some((first, rest)) = types.split_first() else {
                return Ok(());
            };
            replace_type(by, first, out)?;
            replace_list(by, Parts::Types(rest), out)
        }
        Parts::Fields(fields) => {
            let Some((name, first, rest)) = fields.split_first() else {
                return Ok(());
            };
            let start = out.reserve();
            replace_type(by, first, out)?;
            out.begin(start, View::Field(name));
            replace_list(by, Parts::Fields(rest), out)
        }
    }
}
