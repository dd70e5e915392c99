//! The calls on products: four words for each factor, as `library_words::product_words` has them.
ghost use Rattle.std.specs.Prelude.{◌≡◌};
ghost use Rattle.rules.specs.Exponents.{frac};
ghost use Rattle.rules.specs.Values.{multiplyCall, divideCall, inverseCall, raiseCall};
ghost use Rattle.library_words.specs.Factors.{productIn};
ghost use Rattle.shupkelen.specs.Exports.{out, productOut};

use exponents::Exponent;
use library_words::hand;
use library_words::product_words::{product_from, put_product};

/// The product of two products, their powers added factor by factor. `res` gets all 64 places, (0, 0, 0, 1) in the unused ones, as far as it goes; says
/// how many factors. Refuses with 10, 1, 7 (a power out of range) and 8 (over 64 factors), and writes nothing then.
#[unsafe(no_mangle)]
pub extern "C" fn shupkelen_product_multiply(
    pool: &[u8],
    table: &[u32],
    first: &[u32],
    second: &[u32],
    res: &mut [u32],
    answer: &mut [u32],
) -> u32
    ensures { out result answer.new res.new ≡ productOut (multiplyCall pool.now table.now (productIn first.now) (productIn second.now)) res.old answer.old }
{
    let p = product_from(first);
    let q = product_from(second);
    hand(put_product(p.multiply(q, pool, table), res), answer)
}

/// The quotient of two products: the first times the inverse of the second. Writes, says and refuses as the multiplication does.
#[unsafe(no_mangle)]
pub extern "C" fn shupkelen_product_divide(
    pool: &[u8],
    table: &[u32],
    first: &[u32],
    second: &[u32],
    res: &mut [u32],
    answer: &mut [u32],
) -> u32
    ensures { out result answer.new res.new ≡ productOut (divideCall pool.now table.now (productIn first.now) (productIn second.now)) res.old answer.old }
{
    let p = product_from(first);
    let q = product_from(second);
    hand(put_product(p.divide(q, pool, table), res), answer)
}

/// The inverse of a product: each power negated. Writes, says and refuses as the multiplication does; 7 and 8 don't come.
#[unsafe(no_mangle)]
pub extern "C" fn shupkelen_product_invert(
    pool: &[u8],
    table: &[u32],
    first: &[u32],
    res: &mut [u32],
    answer: &mut [u32],
) -> u32
    ensures { out result answer.new res.new ≡ productOut (inverseCall pool.now table.now (productIn first.now)) res.old answer.old }
{
    let p = product_from(first);
    hand(put_product(p.invert(pool, table), res), answer)
}

/// A power of a product: each power multiplied by the fraction; the power 0 gives the scalar. Writes and says as the multiplication does. Refuses with
/// 10, 1 (also a fraction that is not in lowest terms or out of range) and 7.
#[unsafe(no_mangle)]
pub extern "C" fn shupkelen_product_power(
    pool: &[u8],
    table: &[u32],
    first: &[u32],
    num: i32,
    den: u32,
    res: &mut [u32],
    answer: &mut [u32],
) -> u32
    ensures { out result answer.new res.new ≡ productOut (raiseCall pool.now table.now (productIn first.now) (frac num den)) res.old answer.old }
{
    let p = product_from(first);
    let e = Exponent { num, den };
    hand(put_product(p.power(e, pool, table), res), answer)
}
