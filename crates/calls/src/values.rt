//! The calls on exponents and products. Both pass by value: an exponent as two words, a product as 64 times four with its count beside them.
ghost use Rattle.std.specs.Prelude.{◌≡◌};
ghost use Rattle.rules.specs.Values.{sumCall, timesCall, negationCall, quotientCall, multiplyCall, divideCall, inverseCall, raiseCall};
ghost use Rattle.calls_defined.specs.Factors.{exponentAt, productAt};
ghost use Rattle.calls_defined.specs.Saying.{powerAs};
ghost use Rattle.calls_defined.specs.Dispatch.{shown, productShown};

use crate::inner::told_product;
use calls_defined::inner::{exponent_at, product_from};
use calls_defined::told::{Told, powered};
use calls_defined::{Asked, Lists};

/// The sum of the exponents at the front.
pub fn exponent_sum(a: &[u32]) -> Told
    ensures { result ≡ powerAs (sumCall (exponentAt a.now 0) (exponentAt a.now 2)) }
{
    powered(exponent_at(a, 0).add(exponent_at(a, 2)))
}

/// Their product.
pub fn exponent_product(a: &[u32]) -> Told
    ensures { result ≡ powerAs (timesCall (exponentAt a.now 0) (exponentAt a.now 2)) }
{
    powered(exponent_at(a, 0).multiply(exponent_at(a, 2)))
}

/// The first one, negated.
pub fn exponent_negation(a: &[u32]) -> Told
    ensures { result ≡ powerAs (negationCall (exponentAt a.now 0)) }
{
    powered(exponent_at(a, 0).negate())
}

/// The first one divided by the second.
pub fn exponent_quotient(a: &[u32]) -> Told
    ensures { result ≡ powerAs (quotientCall (exponentAt a.now 0) (exponentAt a.now 2)) }
{
    powered(exponent_at(a, 0).divide(exponent_at(a, 2)))
}

/// The product of two products, whose counts are x and y.
pub fn product_product(q: Asked, lists: Lists, pool: &[u8], table: &[u32], res: &mut [u32]) -> Told
    ensures { shown result res.new
        ≡ productShown (multiplyCall pool.now table.now (productAt lists.entry.a.now q.x) (productAt lists.entry.b.now q.y)) res.old }
{
    let p = product_from(lists.a, q.x as usize);
    let r = product_from(lists.b, q.y as usize);
    told_product(p.multiply(r, pool, table), res)
}

/// The first one divided by the second.
pub fn product_quotient(q: Asked, lists: Lists, pool: &[u8], table: &[u32], res: &mut [u32]) -> Told
    ensures { shown result res.new ≡ productShown (divideCall pool.now table.now (productAt lists.entry.a.now q.x) (productAt lists.entry.b.now q.y)) res.old }
{
    let p = product_from(lists.a, q.x as usize);
    let r = product_from(lists.b, q.y as usize);
    told_product(p.divide(r, pool, table), res)
}

/// The first one, inverted.
pub fn product_inverse(q: Asked, lists: Lists, pool: &[u8], table: &[u32], res: &mut [u32]) -> Told
    ensures { shown result res.new ≡ productShown (inverseCall pool.now table.now (productAt lists.entry.a.now q.x)) res.old }
{
    let p = product_from(lists.a, q.x as usize);
    told_product(p.invert(pool, table), res)
}

/// The first one to the power that b has.
pub fn product_power(q: Asked, lists: Lists, pool: &[u8], table: &[u32], res: &mut [u32]) -> Told
    ensures { shown result res.new ≡ productShown (raiseCall pool.now table.now (productAt lists.entry.a.now q.x) (exponentAt lists.entry.b.now 0)) res.old }
{
    let p = product_from(lists.a, q.x as usize);
    let e = exponent_at(lists.b, 0);
    told_product(p.power(e, pool, table), res)
}
