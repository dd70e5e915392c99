//! At most 24 rows, by value, and the machine that eliminates them one by one.
ghost use Rattle.std.specs.Prelude.{◌≡◌, List, [], ℕ, ◌+◌, ◌<◌, ◌≤◌, get_or, set, take, drop};
ghost use Rattle.rules.specs.Base.{each};
ghost use Rattle.rules.specs.Trees.{Atom};
ghost use Rattle.rules.specs.Elimination.{putInRow, gone, stays, binds, fate};
ghost use Rattle.rules.specs.Refusals.{toldBy};
ghost use Rattle.engine_matrix.specs.Told.{row_in};
ghost use Rattle.engine_matrix.specs.Grids.{rowsIn, front};
ghost use Rattle.engine_matrix.specs.Machine.{colsIn, rest, On, Went, endOf, firstRow};

use crate::inner::parts::{Columns, Grid, Machine, Row};
use crate::inner::rows::{first_in, put_in, solved_for};
use rules::Refusal;

/// The row at a place.
pub fn row_at(g: Grid, i: usize) -> Row
    requires place { i < 24 }
    ensures { row_in result ≡ get_or (rowsIn g) i [] }
{
    g.rows[i]
}

/// The grid with another row at a place.
pub fn with_row(g: Grid, i: usize, r: Row) -> Grid
    requires place { i < 24 }
    ensures { rowsIn result ≡ set (rowsIn g) i (row_in r) }
{
    let mut q = g;
    q.rows[i] = r;
    q
}

/// The variable of column c, whose value is w, put into the m rows from s on; they come to stand in front.
pub fn put_in_rows(c: usize, w: Row, g: Grid, s: usize, m: usize) -> Result<Grid, Refusal>
    requires column { c < 48 }
    requires places { s + m ≤ 24 }
    ensures { toldBy (front m) result ≡ each (putInRow c (row_in w)) (take m (drop s (rowsIn g))) }
{
    let mut out = g;
    for i in 0..m {
        let r = put_in(c, w, row_at(g, s + i))?;
        out = with_row(out, i, r);
    }
    Ok(out)
}

/// A row of zeros is gone.
fn dropped(m: Machine) -> Machine
    requires left { 0 < m.left }
    ensures { (cols : List (Atom ℕ)) → fate cols (firstRow m) ≡ gone → On cols m result }
{
    let mut q = m;
    q.at += 1;
    q.left -= 1;
    q
}

/// A row without a variable stays.
fn keeping(m: Machine, r: Row) -> Machine
    requires left { 0 < m.left }
    ensures { (cols : List (Atom ℕ)) → fate cols (row_in r) ≡ stays → firstRow m ≡ row_in r → On cols m result }
{
    let mut q = m;
    q.kept = with_row(m.kept, m.stay, r);
    q.stay += 1;
    q.at += 1;
    q.left -= 1;
    q
}

/// The variable x of column c is bound by the row r: its value is put into the rows and into the values, and comes to stand behind them.
fn binding(m: Machine, c: usize, x: u32, r: Row) -> Result<Machine, Refusal>
    requires column { c < 48 }
    requires left { 0 < m.left }
    ensures { (cols : List (Atom ℕ)) → fate cols (row_in r) ≡ binds c x → firstRow m ≡ row_in r → Went cols m result }
{
    let w = solved_for(c, r)?;
    let rows = put_in_rows(c, w, m.rows, m.at + 1, m.left - 1)?;
    let values = put_in_rows(c, w, m.values, 0, m.found)?;
    let mut q = m;
    q.rows = rows;
    q.at = 0;
    q.left -= 1;
    q.names[m.found] = x;
    q.values = with_row(values, m.found, w);
    q.found += 1;
    Ok(q)
}

/// One row: gone, bound or kept.
fn step(k: Columns, m: Machine) -> Result<Machine, Refusal>
    requires left { 0 < m.left }
    ensures { Went (colsIn k) m result }
{
    let r = row_at(m.rows, m.at);
    let c = first_in(r, k.len);
    if k.len <= c {
        return Ok(dropped(m));
    }
    if c < k.variables {
        return binding(m, c, k.vars[c], r);
    }
    Ok(keeping(m, r))
}

/// Row by row, from the first. Refused with 7 where a power leaves the range.
pub fn eliminate(k: Columns, m: Machine) -> Result<Machine, Refusal>
    ensures { toldBy endOf result ≡ rest (colsIn k) m }
{
    let mut q = m;
    'rows: for _i in 0..m.left {
        q = step(k, q)?;
    }
    Ok(q)
}
