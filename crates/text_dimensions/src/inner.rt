//! Each function reads on and at once does what is read, until the first refusal; after that it only reads on.
pub mod factors;
pub mod whole;

ghost use Rattle.std.specs.Prelude.{◌≡◌, true, List, [], ℕ};
ghost use Rattle.rules.specs.Exponents.{goodExp};
ghost use Rattle.rules.specs.Products.{put};
ghost use Rattle.rules.specs.TextReading.{atomNamed};
ghost use Rattle.rules.specs.Values.{productValue};
ghost use Rattle.exponents.specs.Answers.{expOf};
ghost use Rattle.products.specs.Told.{given};
ghost use Rattle.products.specs.Held.{Well};
ghost use Rattle.products.specs.Kinds.{Kind, atomBy};
ghost use Rattle.text_grammar.specs.Points.{PointIn};
ghost use Rattle.text_grammar.specs.Factors.{atom, powerThere};
ghost use Rattle.text_names.specs.Effects.{lent, Ready, Done};
ghost use Rattle.text_dimensions.specs.Atoms.{KindFor, AtomTold};
ghost use Rattle.text_dimensions.specs.Powers.{powerStand, expIn, powered, ExpTold};
ghost use Rattle.text_dimensions.specs.Times.{HeldIf, Timed};

use exponents::Exponent;
use names::tables::NameTable;
use products::inner::multiplied;
use products::{Factor, Product};
use rules::Refusal;
use text_grammar::inner::{byte_at, mark, next_is, next_sign, read_power, refuse};
use text_grammar::power_value;
use text_names::inner::naming::read_named;
use text_names::inner::{At, Reached, Stand, place_of};

/// What a factor is a power of: the kind of its record, and the name's number.
#[derive(Clone, Copy)]
pub struct Atomic {
    pub end: Reached,
    pub kind: u32,
    pub number: u32,
}

/// A power, or 1 where there is none.
#[derive(Clone, Copy)]
pub struct Powered {
    pub end: Reached,
    pub exp: Exponent,
}

/// A product with one factor more, or as it was.
#[derive(Clone, Copy)]
pub struct Multiplied {
    pub stand: Stand,
    pub product: Product,
}

/// The kind that a mark begins; 0 for any other byte.
fn kind_for(b: u8) -> u32
    ensures { KindFor b result }
{
    match b {
        b'?' => 11,
        b'!' => 12,
        b'#' => 13,
        _ => 0,
    }
}

/// A mark and its name, which is entered.
fn enter_atom(line: &[u8], from: Reached, pool: &mut [u8], table: &mut [u32]) -> Atomic
    requires { Ready line.now from.at pool.old table.old from.stand }
    ensures { (dst : List ℕ) → Done line.now atom atomNamed (AtomTold table.new result.kind result.number) from.at (lent pool.old table.old dst from.stand)
        result.end.at (lent pool.new table.new dst result.end.stand) }
{
    let c = next_sign(line, from.at);
    let s = from.stand;
    let b = byte_at(line, c);
    let kind = kind_for(b);
    if kind == 0 {
        let at = refuse(c);
        return Atomic {
            end: Reached { at, stand: s },
            kind: 0,
            number: 0,
        };
    }
    let a = mark(line, c, b);
    let x = read_named(line, Reached { at: a, stand: s }, pool, table);
    Atomic {
        end: x.end,
        kind,
        number: x.number,
    }
}

/// 7 at the power's sign, unless the sheet is refused already.
fn power_stand(s: Stand, at: usize, v: &Result<Exponent, Refusal>) -> Stand
    ensures { result ≡ powerStand s at v.now }
{
    let tally = s?;
    match v {
        Ok(_) => Ok(tally),
        Err(why) => Err(At { why: *why, at }),
    }
}

fn exp_in(v: Result<Exponent, Refusal>) -> Exponent
    ensures { result ≡ expIn v }
{
    match v {
        Ok(e) => e,
        Err(_) => Exponent::ONE,
    }
}

/// The power of a factor, if it has one: no name is entered, whatever pool and table hold.
fn enter_power(line: &[u8], from: Reached) -> Powered
    requires { PointIn line.now from.at }
    ensures { (goodExp (expOf result.exp) ≡ true) × ((pool table dst : List ℕ) → Ready line.now from.at pool table from.stand
        → Done line.now powerThere powered (ExpTold result.exp) from.at (lent pool table dst from.stand) result.end.at (lent pool table dst result.end.stand)) }
{
    if next_is(line, from.at, b'^') {
        let c = next_sign(line, from.at);
        let e = read_power(line, from.at);
        let v = power_value(e.minus, e.num, e.den);
        let stand = power_stand(from.stand, place_of(c), &v);
        return Powered {
            end: Reached { at: e.end, stand },
            exp: exp_in(v),
        };
    }
    Powered {
        end: from,
        exp: Exponent::ONE,
    }
}

/// A product of one factor, or of none where its power is 0.
fn single(factor: Factor) -> Product
    requires { Kind factor.kind }
    ensures { given result ≡ productValue (put (atomBy factor.kind factor.name) (expOf factor.exp) []) }
{
    let mut product = Product::scalar();
    if factor.exp.is_zero() {
        return product;
    }
    product.push(factor);
    product
}

/// Multiplies by a factor: 7 or 8 at its mark, unless the sheet is refused already.
fn times(q: Product, factor: Factor, at: usize, s: Stand, names: NameTable) -> Multiplied
    requires well { Well names.pool.now names.table.now q }
    requires power_good { goodExp (expOf factor.exp) ≡ true }
    requires name_held { HeldIf names.table.now factor.kind factor.name s }
    ensures { Timed names.entry.pool.now names.entry.table.now q factor.kind factor.name (expOf factor.exp) at s result.stand result.product }
{
    match s {
        Err(_) => Multiplied {
            stand: s,
            product: q,
        },
        Ok(_) => match multiplied(&q, &single(factor), names) {
            Ok(product) => Multiplied { stand: s, product },
            Err(why) => Multiplied {
                stand: Err(At { why, at }),
                product: q,
            },
        },
    }
}
