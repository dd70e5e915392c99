//! A dimension: its record is counted at its first byte, the factors that are left at its closing bracket; then all are written.
ghost use Rattle.std.specs.Prelude.{◌≡◌};
ghost use Rattle.products.specs.Held.{Sound};
ghost use Rattle.text_names.specs.Stands.{Few};
ghost use Rattle.text_names.specs.Effects.{lent, Ready};
ghost use Rattle.text_dimensions.specs.Whole.{productPut, DimDone};

use super::factors::enter_factors;
use products::Product;
use text_grammar::inner::{mark, next_sign};
use text_names::inner::{Reached, Stand, count, place_of};
use types::writer::Writer;

/// Writes a product from the place that s counted on, if all of it was counted up to r.
fn put_product(q: Product, s: Stand, r: Stand, dst: &mut [u32])
    requires few { Few s }
    requires sound { Sound q }
    ensures { dst.new ≡ productPut q s r dst.old }
{
    let Ok(before) = s else {
        return;
    };
    let Ok(_) = r else {
        return;
    };
    let mut out = Writer {
        words: dst,
        at: before.records,
    };
    out.product(&q);
}

/// A dimension and its records.
pub fn enter_dimension(
    line: &[u8],
    from: Reached,
    pool: &mut [u8],
    table: &mut [u32],
    dst: &mut [u32],
) -> Reached
    requires { Ready line.now from.at pool.old table.old from.stand }
    ensures { DimDone line.now from.at (lent pool.old table.old dst.old from.stand) result.at (lent pool.new table.new dst.new result.stand) }
{
    let c = next_sign(line, from.at);
    let now = count(1, place_of(c), from.stand);
    let a = mark(line, c, b'[');
    let f = enter_factors(line, Reached { at: a, stand: now }, pool, table);
    let e = next_sign(line, f.end.at);
    let stand = count(f.product.len, place_of(e), f.end.stand);
    put_product(f.product, from.stand, stand, dst);
    let at = mark(line, e, b']');
    Reached { at, stand }
}
