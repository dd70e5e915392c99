// The operations on exponents that are known to be well formed.
ghost use Rattle.std.specs.Prelude.{◌≡◌, true, false, ◌<◌};
ghost use Rattle.std.proofs.Math.Option.{some};
ghost use Rattle.rules.specs.Base.{bounded};
ghost use Rattle.rules.specs.Exponents.{lowest, ranged, goodExp, isZero, neg, inverted, sum, times, quotient};
ghost use Rattle.rules.specs.Refusals.{toldBy};
ghost use Rattle.exponents.specs.Answers.{expOf, with_sign};

use crate::divisor::common_divisor;
use crate::{Exponent, TOP};
use rules::Refusal;

// A numerator of this size with the sign of n.
fn with_sign(n: i64, size: u64) -> i32
    requires { size < 2147483648 }
    ensures { result ≡ with_sign n size }
{
    let s = size as i32;
    if n < 0 { -s } else { s }
}

// n / d in lowest terms, or 7 where that is out of range.
#[tactic(auto, using(crate::proofs::Steps::reducing))]
fn reduced(n: i64, d: u64) -> Result<Exponent, Refusal>
    requires { 0 < d }
    ensures { toldBy expOf result ≡ ranged bounded (lowest n d) }
{
    let m = n.unsigned_abs();
    let g = common_divisor(m, d);
    let p = m / g;
    let q = d / g;
    if TOP < p || TOP < q {
        return Err(Refusal::OutOfRange);
    }
    Ok(Exponent {
        num: with_sign(n, p),
        den: q as u32,
    })
}

#[tactic(auto, using(crate::proofs::Steps::products), unfolding(rules::specs::Exponents::sum, rules::specs::Exponents::plus))]
pub fn sum_of(a: Exponent, b: Exponent) -> Result<Exponent, Refusal>
    requires { (goodExp (expOf a) ≡ true) × (goodExp (expOf b) ≡ true) }
    ensures { toldBy expOf result ≡ sum bounded (expOf a) (expOf b) }
{
    let left = i64::from(a.num) * i64::from(b.den);
    let right = i64::from(b.num) * i64::from(a.den);
    reduced(left + right, u64::from(a.den) * u64::from(b.den))
}

#[tactic(auto, using(crate::proofs::Steps::products), unfolding(rules::specs::Exponents::times, rules::specs::Exponents::mul))]
pub fn product_of(a: Exponent, b: Exponent) -> Result<Exponent, Refusal>
    requires { (goodExp (expOf a) ≡ true) × (goodExp (expOf b) ≡ true) }
    ensures { toldBy expOf result ≡ times bounded (expOf a) (expOf b) }
{
    reduced(
        i64::from(a.num) * i64::from(b.num),
        u64::from(a.den) * u64::from(b.den),
    )
}

#[tactic(auto, using(crate::proofs::Steps::negations), unfolding(rules::specs::Exponents::neg))]
pub fn negative_of(a: Exponent) -> Exponent
    requires { goodExp (expOf a) ≡ true }
    ensures { expOf result ≡ neg (expOf a) }
{
    Exponent {
        num: -a.num,
        den: a.den,
    }
}

#[tactic(auto, using(crate::proofs::Steps::inverting))]
pub fn inverse_of(a: Exponent) -> Exponent
    requires { (goodExp (expOf a) ≡ true) × (isZero (expOf a) ≡ false) }
    ensures { inverted (expOf a) ≡ some (expOf result) }
{
    Exponent {
        num: with_sign(i64::from(a.num), u64::from(a.den)),
        den: a.num.unsigned_abs(),
    }
}

#[tactic(auto, using(crate::proofs::Steps::inverting), unfolding(rules::specs::Exponents::quotient))]
pub fn quotient_of(a: Exponent, b: Exponent) -> Result<Exponent, Refusal>
    requires { (goodExp (expOf a) ≡ true) × (goodExp (expOf b) ≡ true) }
    ensures { toldBy expOf result ≡ quotient bounded (expOf a) (expOf b) }
{
    if b.is_zero() {
        return Err(Refusal::OutOfRange);
    }
    product_of(a, inverse_of(b))
}
