//! The rows that are left, and the values that were found, as records.
ghost use Rattle.std.specs.Prelude.{◌≡◌, List, [], map, ℕ, ◌≤◌, length};
ghost use Rattle.rules.specs.Base.{got, collect};
ghost use Rattle.rules.specs.Trees.{Atom as TreeAtom, ◌↑◌, is_scalar};
ghost use Rattle.rules.specs.Writing.{writeFactor, writeProduct, writeCon, writeBinding};
ghost use Rattle.rules.specs.Refusals.{toldBy};
ghost use Rattle.rules.specs.Elimination.{◌gets◌, factors, boundBy, eliminate as eliminated, eliminatedSet};
ghost use Rattle.exponents.specs.Answers.{expOf};
ghost use Rattle.records.specs.Views.{recOf};
ghost use Rattle.records.specs.Holds.{atomOf};
ghost use Rattle.types.specs.Given.{call_over};
ghost use Rattle.types.specs.Written.{Writes};
ghost use Rattle.engine_matrix.specs.Told.{row_in};
ghost use Rattle.engine_matrix.specs.Machine.{colsIn, staying, bound, rest};
ghost use Rattle.engine_rows.specs.Lines.{rowsOf};
ghost use Rattle.engine.specs.Reducing.{SetHeld, reduction, settledIn, settledOf};
ghost use Rattle.engine.specs.Told.{Answered};
ghost use Rattle.engine.specs.Put.{Factored};

use super::Eliminated;
use engine_matrix::inner::grids::{eliminate, row_at};
use engine_matrix::inner::parts::{Columns, Machine, Row};
use engine_matrix::inner::rows::power_at;
use engine_rows::Lines;
use engine_rows::inner::{atom_at, blank, lines_of, list_columns};
use exponents::Exponent;
use names::tables::NameTable;
use records::{Atom, View};
use rules::Refusal;
use types::writer::Writer;
use types::{Constraints, GivenSet};

/// The record of a factor.
fn factor_view(a: Atom, e: Exponent) -> View
    ensures { recOf result 1 ≡ writeFactor (atomOf a ↑ expOf e) }
{
    View::Factor(a, e.num_word(), e.den)
}

/// Writes the factors of a row, column by column, and says how many they are.
fn put_factors(k: Columns, r: Row, out: &mut Writer) -> u32
    ensures { Factored out.old out.new result (factors (colsIn k) (row_in r)) }
{
    let mut n = 0;
    for j in 0..k.len {
        let e = power_at(r, j);
        if e.is_zero() {
            continue;
        }
        out.put(factor_view(atom_at(k, j), e), 1);
        n += 1;
    }
    n
}

/// Writes a row as a product.
fn put_product(k: Columns, r: Row, out: &mut Writer)
    ensures { Writes out.old out.new (writeProduct (factors (colsIn k) (row_in r))) }
{
    let start = out.reserve();
    let n = put_factors(k, r, out);
    out.begin(start, View::Dim(n));
}

/// Writes the binding of x to a row.
fn put_binding(k: Columns, x: u32, r: Row, out: &mut Writer)
    ensures { Writes out.old out.new (writeBinding (boundBy (colsIn k) (x gets row_in r))) }
{
    let start = out.reserve();
    put_product(k, r, out);
    out.begin(start, View::Binding(x));
}

/// Writes a row as an equal-scalar.
fn put_line(k: Columns, r: Row, out: &mut Writer)
    ensures { Writes out.old out.new (writeCon (is_scalar (factors (colsIn k) (row_in r)))) }
{
    let start = out.reserve();
    put_product(k, r, out);
    out.begin(start, View::IsScalar);
}

/// Writes the rows that stay as equal-scalars.
fn put_lines(k: Columns, m: Machine, out: &mut Writer)
    ensures { Writes out.old out.new (collect writeCon (map (λ r. is_scalar (factors (colsIn k) r)) (staying m))) }
{
    for i in 0..m.stay {
        put_line(k, row_at(m.kept, i), out);
    }
}

/// Writes the values as bindings.
fn put_bindings(k: Columns, m: Machine, out: &mut Writer)
    ensures { Writes out.old out.new (collect writeBinding (map (boundBy (colsIn k)) (bound m))) }
{
    for i in 0..m.found {
        put_binding(k, m.names[i], row_at(m.values, i), out);
    }
}

/// No columns.
fn none() -> Columns {
    Columns {
        vars: [0; 256],
        variables: 0,
        pars: [0; 256],
        parameters: 0,
        bases: [0; 256],
        dimensions: 0,
        len: 0,
    }
}

/// A machine that has these rows to do.
fn start(lines: Lines) -> Machine
    ensures { (cols : List (TreeAtom ℕ)) → rest cols result ≡ eliminated cols lines.len (rowsOf lines) [] }
{
    Machine {
        rows: lines.grid,
        at: 0,
        left: lines.len,
        kept: blank(),
        stay: 0,
        names: [0; 24],
        values: blank(),
        found: 0,
    }
}

/// What the rows of a set come to: its columns, and the machine at its end.
#[derive(Clone, Copy)]
pub struct Reduced {
    pub columns: Columns,
    pub machine: Machine,
}

/// The set, laid out and eliminated. Refuses with 8 where it doesn't fit, and with 7.
pub fn reduce(names: NameTable, set: Constraints) -> Result<Reduced, Refusal>
    requires set_held { SetHeld names.pool.now names.table.now set.words.now set.end set.trees.0 }
    ensures { toldBy settledOf result ≡ reduction names.entry.pool.now names.entry.table.now set.entry.trees.0 }
{
    lines_of(set, none())?; // the kinds alone: which names there are is known of equal-scalars only
    let columns = list_columns(names, set.words, set.end)?;
    let lines = lines_of(set, columns)?;
    let machine = eliminate(columns, start(lines))?;
    Ok(Reduced { columns, machine })
}

/// The rows that are left, or else the values, written into the result buffer.
fn write(k: Columns, m: Machine, res: &mut [u32]) -> Eliminated
    requires room { 8192 ≤ length res.old }
    ensures { Answered (got (settledIn k m)) res.old res.new (Ok result) }
{
    let mut out = Writer { words: res, at: 0 };
    if 0 < m.stay {
        put_lines(k, m, &mut out);
        return Eliminated::Left(out.at);
    }
    put_bindings(k, m, &mut out);
    Eliminated::Bound(out.at)
}

/// All that the engine does past the check of 10.
pub fn eliminate_set(
    names: Result<NameTable, Refusal>,
    words: &[u32],
    res: &mut [u32],
) -> Result<Eliminated, Refusal>
    requires room { 8192 ≤ length res.old }
    ensures { Answered (call_over names.entry eliminatedSet words.now) res.old res.new result }
{
    let given = GivenSet::apart(names, words)?;
    let end = words.len() / 4;
    let set = Constraints { words, at: 0, end };
    let reduced = reduce(given.names, set)?;
    Ok(write(reduced.columns, reduced.machine, res))
}
