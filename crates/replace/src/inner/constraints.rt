//! Replacing in constraints and bindings.
ghost use Rattle.std.specs.Prelude.{◌≡◌};
ghost use Rattle.rules.specs.Base.{collect, each};
ghost use Rattle.rules.specs.Trees.{◌≔◌};
ghost use Rattle.rules.specs.Writing.{writeBinding, writeCon};
ghost use Rattle.replace.specs.Well.{GoodBinding, GoodCon, GoodTy};
ghost use Rattle.laws.specs.Lists.{Every};
ghost use Rattle.replace.specs.Leaves.{Leaves, bindingBy, conBy};

use super::walk::{replace_product, replace_type};
use crate::substitution::Substitution;
use records::View;
use rules::{RECORDS, Refusal};
use types::writer::Writer;
use types::{Bindings, Constraint, Constraints, Demand, Type};

/// Writes a constraint with its bound variables replaced. The product of an equal-scalar stays a product.
pub fn replace_constraint(by: Substitution, c: Constraint, out: &mut Writer) -> Result<(), Refusal>
    requires { GoodCon by.names.pool.now by.names.table.now c.tree.0 }
    ensures { Leaves writeCon out.old out.new result (conBy by.entry c.entry.tree.0) }
{
    if c.len() <= RECORDS {
        if !by.touches(c.words, c.at, c.end()) {
            out.copy_constraint(c); // nothing in it is replaced
            return Ok(());
        }
    }
    let start = out.reserve();
    match c.demand() {
        Demand::Equal(left, right) => {
            replace_type(by, left, out)?;
            replace_type(by, right, out)?;
            out.begin(start, View::Equal);
            Ok(())
        }
        Demand::IsDimension(t) => {
            replace_type(by, t, out)?;
            out.begin(start, View::IsDim);
            Ok(())
        }
        Demand::IsScalar(p) => {
            replace_product(by, p, out)?;
            out.begin(start, View::IsScalar);
            Ok(())
        }
        Demand::HasField(name, of, asked) => {
            replace_type(by, of, out)?;
            replace_type(by, asked, out)?;
            out.begin(start, View::HasField(name));
            Ok(())
        }
    }
}

/// Writes the binding of `x` to a type, with the bound variables of the type replaced.
pub fn replace_binding(by: Substitution, x: u32, t: Type, out: &mut Writer) -> Result<(), Refusal>
    requires { GoodTy by.names.pool.now by.names.table.now t.tree.0 }
    ensures { Leaves writeBinding out.old out.new result (bindingBy by.entry (x ≔ t.entry.tree.0)) }
{
    let start = out.reserve();
    replace_type(by, t, out)?;
    out.begin(start, View::Binding(x));
    Ok(())
}

/// Writes constraints one after another with their bound variables replaced.
pub fn replace_constraints(
    by: Substitution,
    cs: Constraints,
    out: &mut Writer,
) -> Result<(), Refusal>
    requires { Every (GoodCon by.names.pool.now by.names.table.now) cs.trees.0 }
    ensures { Leaves (collect writeCon) out.old out.new result (each (conBy by.entry) cs.entry.trees.0) }
{
    'constraints: for c in cs {
        replace_constraint(by, c, out)?;
    }
    Ok(())
}

/// Writes bindings one after another with the bound variables of their types replaced.
pub fn replace_bindings(by: Substitution, bs: Bindings, out: &mut Writer) -> Result<(), Refusal>
    requires { Every (GoodBinding by.names.pool.now by.names.table.now) bs.trees.0 }
    ensures { Leaves (collect writeBinding) out.old out.new result (each (bindingBy by.entry) bs.entry.trees.0) }
{
    'bindings: for b in bs {
        replace_binding(by, b.name, b.to, out)?;
    }
    Ok(())
}
