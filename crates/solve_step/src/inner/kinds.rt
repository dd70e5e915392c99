//! The rules for two types that are equal, by their kinds.
ghost use Rattle.std.specs.Prelude.{◌≡◌, ◌+◌, ◌≤◌, ◌<◌};
ghost use Rattle.rules.specs.Base.{got, bounded};
ghost use Rattle.rules.specs.Products.{divide};
ghost use Rattle.rules.specs.Refusals.{toldOption};
ghost use Rattle.rules.specs.Rounds.{asProducts, by_kind};
ghost use Rattle.rules.specs.Trees.{dim, size};
ghost use Rattle.rules.specs.Writing.{writeProduct};
ghost use Rattle.records.specs.Good.{numbers};
ghost use Rattle.products.specs.Told.{Tree, productOf};
ghost use Rattle.products.specs.Held.{Sound};
ghost use Rattle.replace.specs.Well.{GoodTy, GoodProduct};
ghost use Rattle.types.specs.Written.{Writes};
ghost use Rattle.solve_step.specs.Parts.{asScalar};
ghost use Rattle.solve_step.specs.Applied.{Applied};

use super::super::Step;
use names::tables::NameTable;
use products::inner::divided;
use records::{Atom, Open, View};
use rules::Refusal;
use types::writer::Writer;
use types::{Product, Shape, Type};

/// A variable against a dimension: the variable as a product, first, equal to the dimension.
fn as_product(x: Option<u32>, dimension: Type, out: &mut Writer) -> Step
    requires { size dimension.tree.0 ≤ 65_000 }
    ensures { (p : Tree) → dimension.entry.tree.0 ≡ dim p → Applied out.old out.new (Ok result) (got (asProducts (toldOption x) p)) }
{
    let Some(x) = x else {
        return Step::Stuck;
    };
    out.put(View::Equal, 3 + dimension.len());
    out.put(View::Dim(1), 2);
    out.put(View::Factor(Atom::Free(Open::Var(x)), 1, 1), 1);
    out.copy(dimension);
    Step::Split(out.at)
}

/// Two dimensions: left divided by right is a scalar.
fn quotient(
    names: NameTable,
    left: Product,
    right: Product,
    out: &mut Writer,
) -> Result<Step, Refusal>
    requires left_good { GoodProduct names.pool.now names.table.now left.factors.0 }
    requires right_good { GoodProduct names.pool.now names.table.now right.factors.0 }
    requires small { out.old.at < 1_000_000_000 }
    ensures { Applied out.old out.new result
        (asScalar (divide (numbers names.entry.pool.now names.entry.table.now) bounded left.entry.factors.0 right.entry.factors.0)) }
{
    let made = divided(&left.value(), &right.value(), names)?;
    out.put(View::IsScalar, 2 + made.len);
    out.product(&made);
    Ok(Step::Split(out.at))
}

/// Two dimensions: their quotient is a scalar. A variable against a dimension: the variable is one, too. Functions with as many parameters: what they return,
/// then the parameters. Structs of one name with as many arguments: the arguments. Lists: the elements.
pub fn by_kind(names: NameTable, left: Type, right: Type, out: &mut Writer) -> Result<Step, Refusal>
    requires left_good { GoodTy names.pool.now names.table.now left.tree.0 }
    requires right_good { GoodTy names.pool.now names.table.now right.tree.0 }
    requires short { size left.tree.0 + size right.tree.0 < 65_000 }
    requires small { out.old.at < 1_000_000_000 }
    ensures { Applied out.old out.new result (by_kind (numbers names.entry.pool.now names.entry.table.now) bounded left.entry.tree.0 right.entry.tree.0) }
{
    match (left.shape(), right.shape()) {
        (Shape::Dimension(p), Shape::Dimension(q)) => quotient(names, p, q, out),
        (Shape::Dimension(_), Shape::Open(_)) => Ok(as_product(right.variable(), left, out)),
        (Shape::Open(_), Shape::Dimension(_)) => Ok(as_product(left.variable(), right, out)),
        (Shape::Function(ps, t), Shape::Function(qs, u)) if ps.count == qs.count => {
            out.equal(t, u);
            out.pairs(ps, qs);
            Ok(Step::Split(out.at))
        }
        (Shape::Struct(x, ts, _), Shape::Struct(y, us, _)) if x == y && ts.count == us.count => {
            out.pairs(ts, us);
            Ok(Step::Split(out.at))
        }
        (Shape::List(t), Shape::List(u)) => {
            out.equal(t, u);
            Ok(Step::Split(out.at))
        }
        _ => Ok(Step::Stuck),
    }
}
