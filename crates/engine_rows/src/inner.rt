//! The work on words that hold a set.
ghost use Rattle.std.specs.Prelude.{◌≡◌, List, [], ◌++◌, ℕ, ◌+◌, ◌≤◌, ◌<◌, length, get_or, option_to_list, replicate};
ghost use Rattle.rules.specs.Names.{Bytes, numbered};
ghost use Rattle.rules.specs.Trees.{base};
ghost use Rattle.exponents.specs.Answers.{expOf};
ghost use Rattle.records.specs.Holds.{atomOf};
ghost use Rattle.rules.specs.Elimination.{powerIn, row_of};
ghost use Rattle.engine_matrix.specs.Told.{row_in};
ghost use Rattle.engine_matrix.specs.Grids.{rowsIn};
ghost use Rattle.engine_matrix.specs.Machine.{colsIn};
ghost use Rattle.rules.specs.Contents.{sort};
ghost use Rattle.rules.specs.Refusals.{toldBy};
ghost use Rattle.laws.specs.Lists.{Every};
ghost use Rattle.records.specs.Good.{numbers};
ghost use Rattle.queries.specs.Marks.{Has, Filled};
ghost use Rattle.engine_rows.specs.Columns.{basesAtom, basesView, basesIn, Known, headed, listed};
ghost use Rattle.engine_rows.specs.Lines.{Plain, rowsOf, laidOut};
ghost use Rattle.engine_rows.specs.Atoms.{GoodPowers, padded};

use super::Lines;
use engine_matrix::inner::grids::with_row;
use engine_matrix::inner::parts::{Columns, Grid, Row};
use engine_matrix::inner::rows::with_power;
use exponents::Exponent;
use names::tables::NameTable;
use queries::Kind;
use queries::inner::list_names;
use queries::name_set::NameSet;
use records::seen::view_at;
use records::{Atom, Open, View};
use rules::{NAMES, Refusal};
use types::{Constraints, Demand, Product};

/// At most 24 rows, 24 variables, and 24 parameters and base dimensions.
const ROWS: usize = 24;

/// The atom of a column.
pub fn atom_at(k: Columns, j: usize) -> Atom
    requires column { j < k.len }
    ensures { atomOf result ≡ get_or (colsIn k) j (base 0) }
{
    if j < k.variables {
        return Atom::Free(Open::Var(k.vars[j]));
    }
    let i = j - k.variables;
    if i < k.parameters {
        return Atom::Free(Open::Par(k.pars[i]));
    }
    Atom::Base(k.bases[i - k.parameters])
}

/// The power of an atom in a product; 0 where it doesn't occur.
fn power_in(product: Product, a: Atom) -> Exponent
    ensures { (names : List Bytes) → expOf result ≡ powerIn (numbered names) product.entry.factors.0 (atomOf a) }
{
    'factors: for factor in product {
        if factor.atom == a {
            return Exponent::from_words(factor.num, factor.den);
        }
    }
    Exponent::ZERO
}

/// A row of zeros.
pub fn zeros() -> Row
    ensures { row_in result ≡ padded [] }
{
    Row {
        powers: [Exponent::ZERO; 48],
    }
}

/// The row of a product.
fn row_of(product: Product, k: Columns) -> Row
    requires good { GoodPowers product.factors.0 }
    ensures { (names : List Bytes) → row_in result ≡ padded (row_of (numbered names) (colsIn k) product.entry.factors.0) }
{
    let mut out = zeros();
    for j in 0..k.len {
        out = with_power(out, j, power_in(product, atom_at(k, j)));
    }
    out
}

/// A grid of rows of zeros.
pub fn blank() -> Grid
    ensures { rowsIn result ≡ replicate 24 (padded []) }
{
    Grid {
        rows: [zeros(); 24],
    }
}

/// Lays the constraints out, one a row; 8 where they aren't at most 24 equal-scalar constraints.
pub fn lines_of(constraints: Constraints, k: Columns) -> Result<Lines, Refusal>
    requires plain { Every Plain constraints.trees.0 }
    ensures { (names : List Bytes) → toldBy rowsOf result ≡ laidOut names (colsIn k) constraints.entry.trees.0 }
{
    let mut grid = blank();
    let mut len = 0;
    'lines: for constraint in constraints {
        let Demand::IsScalar(product) = constraint.demand() else {
            return Err(Refusal::TooLarge);
        };
        if ROWS <= len {
            return Err(Refusal::TooLarge);
        }
        grid = with_row(grid, len, row_of(product, k));
        len += 1;
    }
    Ok(Lines { grid, len })
}

/// The base dimension that an atom is.
fn base_of(a: Atom) -> Option<u32>
    ensures { option_to_list result ≡ basesAtom a }
{
    match a {
        Atom::Free(_) => None,
        Atom::Base(x) => Some(x),
    }
}

/// The base dimension that a record names.
fn base_at(v: View) -> Option<u32>
    ensures { option_to_list result ≡ basesView v }
{
    match v {
        View::Factor(a, _, _) => base_of(a),
        _ => None,
    }
}

/// The base dimensions that the records before e name.
fn base_names(s: &[u32], e: usize) -> NameSet
    ensures { Has result (basesIn s.now 0 e) }
{
    let mut found = NameSet::new();
    for i in 0..e {
        if let Some(x) = base_at(view_at(s, i)) {
            found.insert(x);
        }
    }
    found
}

/// Lists the base dimensions, sorted, and says how many.
fn list_bases(names: NameTable, s: &[u32], e: usize, out: &mut [u32]) -> usize
    requires held { Every (λ x. x < get_or names.table.now 0 0) (basesIn s.now 0 e) }
    requires room { 256 ≤ length out.old }
    ensures { Filled (sort (numbers names.entry.pool.now names.entry.table.now) (basesIn s.now 0 e)) result out.old out.new }
{
    base_names(s, e).write_sorted(names, out)
}

/// Lists the columns: variables, then parameters, then base dimensions, each sorted; 8 where they are too many.
pub fn list_columns(names: NameTable, s: &[u32], e: usize) -> Result<Columns, Refusal>
    requires known { Known (get_or names.table.now 0 0) s.now e }
    ensures { toldBy headed result ≡ listed (numbers names.entry.pool.now names.entry.table.now) s.now e }
{
    let mut vars = [0u32; NAMES];
    let variables = list_names(names, s, 0, e, Kind::Variables, &mut vars);
    let mut pars = [0u32; NAMES];
    let parameters = list_names(names, s, 0, e, Kind::Parameters, &mut pars);
    let mut bases = [0u32; NAMES];
    let dimensions = list_bases(names, s, e, &mut bases);
    if ROWS < variables
        || ROWS < parameters
        || ROWS < dimensions
        || ROWS < parameters + dimensions
    {
        return Err(Refusal::TooLarge);
    }
    let len = variables + parameters + dimensions;
    let columns = Columns {
        vars,
        variables,
        pars,
        parameters,
        bases,
        dimensions,
        len,
    };
    Ok(columns)
}
