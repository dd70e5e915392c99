//! Factors, multiplied from left to right.
ghost use Rattle.std.specs.Prelude.{◌≡◌};
ghost use Rattle.rules.specs.Grammar.{factor};
ghost use Rattle.rules.specs.TextReading.{multiplied};
ghost use Rattle.products.specs.Told.{productOf};
ghost use Rattle.products.specs.Held.{Well};
ghost use Rattle.text_grammar.specs.Factors.{factorsThere};
ghost use Rattle.text_names.specs.Effects.{Ready};
ghost use Rattle.text_dimensions.specs.Factors.{is_at, fromNone, ProductDone, Followed};

use super::{enter_atom, enter_power, times};
use names::tables::NameTable;
use products::{Factor, Product};
use text_grammar::inner::{Point, mark, next_is, next_sign};
use text_names::inner::{Reached, place_of};

/// Where factors end, how the sheet stands then, and the product so far.
#[derive(Clone, Copy)]
pub struct Factored {
    pub end: Reached,
    pub product: Product,
}

fn is_at(p: Point) -> bool
    ensures { result ≡ is_at p }
{
    matches!(p, Point::At(_))
}

/// A factor: its name is entered, then its power is valued, then it is multiplied.
fn enter_factor(
    line: &[u8],
    from: Reached,
    q: Product,
    pool: &mut [u8],
    table: &mut [u32],
) -> Factored
    requires ready { Ready line.now from.at pool.old table.old from.stand }
    requires well { Well pool.old table.old q }
    ensures { ProductDone line.now factor (multiplied (productOf q)) from.at pool.old table.old from.stand
        result.end.at result.product pool.new table.new result.end.stand }
{
    let c = next_sign(line, from.at);
    let s = from.stand;
    let a = enter_atom(line, Reached { at: c, stand: s }, pool, table);
    let e = enter_power(line, a.end);
    if is_at(e.end.at) {
        let factor = Factor {
            kind: a.kind,
            name: a.number,
            exp: e.exp,
        };
        let names = NameTable { pool, table };
        let m = times(q, factor, place_of(c), e.end.stand, names);
        return Factored {
            end: Reached {
                at: e.end.at,
                stand: m.stand,
            },
            product: m.product,
        };
    }
    Factored {
        end: e.end,
        product: q,
    }
}

/// Further factors, each behind "*".
fn more_factors(line: &[u8], first: Factored, pool: &mut [u8], table: &mut [u32]) -> Factored
    requires ready { Ready line.now first.end.at pool.old table.old first.end.stand }
    requires well { Well pool.old table.old first.product }
    ensures { Followed line.now first.end.at first.product pool.old table.old first.end.stand
        result.end.at result.product pool.new table.new result.end.stand }
{
    let mut f = first;
    while next_is(line, f.end.at, b'*') {
        let a = mark(line, f.end.at, b'*');
        let s = f.end.stand;
        f = enter_factor(line, Reached { at: a, stand: s }, f.product, pool, table);
    }
    f
}

/// The factors of a dimension, if it has any.
pub fn enter_factors(line: &[u8], from: Reached, pool: &mut [u8], table: &mut [u32]) -> Factored
    requires { Ready line.now from.at pool.old table.old from.stand }
    ensures { ProductDone line.now factorsThere fromNone from.at pool.old table.old from.stand
        result.end.at result.product pool.new table.new result.end.stand }
{
    let none = Product::scalar();
    if next_is(line, from.at, b']') {
        return Factored {
            end: from,
            product: none,
        };
    }
    let f = enter_factor(line, from, none, pool, table);
    more_factors(line, f, pool, table)
}
