//! The work on constraints that are known to be held.
pub mod binding;
pub mod kinds;
pub mod others;

ghost use Rattle.std.specs.Prelude.{◌+◌, ◌<◌, ◌≤◌};
ghost use Rattle.rules.specs.Base.{bounded};
ghost use Rattle.rules.specs.Rounds.{trySatisfy};
ghost use Rattle.rules.specs.Trees.{equal, size, sizeCon};
ghost use Rattle.records.specs.Good.{numbers};
ghost use Rattle.replace.specs.Well.{GoodTy};
ghost use Rattle.solve_step.specs.Stepped.{GoodCon, Stepped};
ghost use Rattle.solve_step.specs.Applied.{Applied};

use super::Step;
use binding::first_binding;
use kinds::by_kind;
use names::tables::NameTable;
use others::{equal_scalar, has_field, is_dimension};
use records::View;
use rules::Refusal;
use types::writer::Writer;
use types::{Constraint, Demand, Type};

/// Equal: nothing is left of equal records; then a variable is bound, or the kinds decide.
fn equal(names: NameTable, left: Type, right: Type, out: &mut Writer) -> Result<Step, Refusal>
    requires left_good { GoodTy names.pool.now names.table.now left.tree.0 }
    requires right_good { GoodTy names.pool.now names.table.now right.tree.0 }
    requires short { size left.tree.0 + size right.tree.0 < 65_000 }
    requires small { out.old.at < 1_000_000_000 }
    ensures { Applied out.old out.new result
        (trySatisfy (numbers names.entry.pool.now names.entry.table.now) bounded (equal left.entry.tree.0 right.entry.tree.0)) }
{
    if left.same(right) {
        return Ok(Step::Done);
    }
    match first_binding(left, right) {
        Some(b) => {
            out.put(View::Binding(b.name), 1 + b.to.len());
            out.copy(b.to);
            Ok(Step::Bind(out.at))
        }
        None => by_kind(names, left, right, out),
    }
}

/// What the first rule that fits does with a constraint: its binding or new constraints are written.
fn satisfy(names: NameTable, c: Constraint, out: &mut Writer) -> Result<Step, Refusal>
    requires good { GoodCon names.pool.now names.table.now c.tree.0 }
    requires short { sizeCon c.tree.0 ≤ 65_000 }
    requires small { out.old.at < 1_000_000_000 }
    ensures { Applied out.old out.new result (trySatisfy (numbers names.entry.pool.now names.entry.table.now) bounded c.entry.tree.0) }
{
    match c.demand() {
        Demand::Equal(left, right) => equal(names, left, right, out),
        Demand::IsDimension(of) => Ok(is_dimension(of, out)),
        Demand::IsScalar(product) => equal_scalar(product, out),
        Demand::HasField(name, of, asked) => Ok(has_field(of, name, asked, out)),
    }
}

/// The same: what it leaves is written to `dst` from `out` on, as far as the buffer goes.
pub fn try_satisfy(
    names: NameTable,
    c: Constraint,
    dst: &mut [u32],
    out: usize,
) -> Result<Step, Refusal>
    requires good { GoodCon names.pool.now names.table.now c.tree.0 }
    requires short { sizeCon c.tree.0 ≤ 50_000 }
    requires small { out < 1_000_000_000 }
    ensures { Stepped dst.old dst.new out result (trySatisfy (numbers names.entry.pool.now names.entry.table.now) bounded c.entry.tree.0) }
{
    let mut writer = Writer {
        words: dst,
        at: out,
    };
    satisfy(names, c, &mut writer)
}
