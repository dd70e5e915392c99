//! Rows of powers by value.
ghost use Rattle.std.specs.Prelude.{◌≡◌, true, ◌<◌, ◌≤◌, get_or, set};
ghost use Rattle.rules.specs.Exponents.{nought, goodExp};
ghost use Rattle.rules.specs.Refusals.{toldBy};
ghost use Rattle.exponents.specs.Answers.{expOf};
ghost use Rattle.rules.specs.Elimination.{solvedFor, timesRow, plusRow, putInRow};
ghost use Rattle.engine_matrix.specs.Told.{row_in, quotients};
ghost use Rattle.engine_matrix.specs.Grids.{First};

use crate::inner::parts::Row;
use exponents::Exponent;
use exponents::inner::{negative_of, product_of, quotient_of, sum_of};
use rules::Refusal;

/// 24 variables, 24 parameters and base dimensions.
pub const COLUMNS: usize = 48;

/// The power of a column.
pub fn power_at(r: Row, j: usize) -> Exponent
    requires column { j < 48 }
    ensures { expOf result ≡ get_or (row_in r) j nought }
{
    r.powers[j]
}

/// The row with another power in a column.
pub fn with_power(r: Row, j: usize, e: Exponent) -> Row
    requires column { j < 48 }
    requires power { goodExp (expOf e) ≡ true }
    ensures { row_in result ≡ set (row_in r) j (expOf e) }
{
    let mut q = r;
    q.powers[j] = e;
    q
}

/// Power x value.
fn times_row(k: Exponent, w: Row) -> Result<Row, Refusal>
    requires power { goodExp (expOf k) ≡ true }
    ensures { toldBy row_in result ≡ timesRow (expOf k) (row_in w) }
{
    let mut out = w;
    for j in 0..COLUMNS {
        let e = product_of(power_at(w, j), k)?;
        out = with_power(out, j, e);
    }
    Ok(out)
}

/// Row + row.
fn plus_row(a: Row, b: Row) -> Result<Row, Refusal>
    ensures { toldBy row_in result ≡ plusRow (row_in a) (row_in b) }
{
    let mut out = a;
    for j in 0..COLUMNS {
        let e = sum_of(power_at(a, j), power_at(b, j))?;
        out = with_power(out, j, e);
    }
    Ok(out)
}

/// -j/k for each power j.
fn divided(k: Exponent, r: Row) -> Result<Row, Refusal>
    requires power { goodExp (expOf k) ≡ true }
    ensures { toldBy row_in result ≡ quotients (expOf k) (row_in r) }
{
    let mut out = r;
    for j in 0..COLUMNS {
        let e = quotient_of(negative_of(power_at(r, j)), k)?;
        out = with_power(out, j, e);
    }
    Ok(out)
}

/// The value of the variable in column c, from a row that is to be 0. Refused with 7 where a power leaves the range.
pub fn solved_for(c: usize, r: Row) -> Result<Row, Refusal>
    requires column { c < 48 }
    ensures { toldBy row_in result ≡ solvedFor c (row_in r) }
{
    divided(power_at(r, c), with_power(r, c, Exponent::ZERO))
}

/// The variable of column c, whose value is w, put into a row. Refused with 7 where a power leaves the range.
pub fn put_in(c: usize, w: Row, r: Row) -> Result<Row, Refusal>
    requires column { c < 48 }
    ensures { toldBy row_in result ≡ putInRow c (row_in w) (row_in r) }
{
    let m = times_row(power_at(r, c), w)?;
    plus_row(with_power(r, c, Exponent::ZERO), m)
}

/// The first of the first n columns whose power isn't 0; n where all are 0.
pub fn first_in(r: Row, n: usize) -> usize
    requires columns { n ≤ 48 }
    ensures { First (row_in r) n result }
{
    for j in 0..n {
        if !power_at(r, j).is_zero() {
            return j;
        }
    }
    n
}
