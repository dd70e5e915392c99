// Exponents: fractions in lowest terms within a range, with operations that take and give back such values.
#![tactic(auto)]

mod divisor;
pub mod inner;
pub mod theorems;

ghost use Rattle.std.specs.Prelude.{◌≡◌};
ghost use Rattle.rules.specs.Base.{is_yes};
ghost use Rattle.rules.specs.Exponents.{Exp-dec, nought, one, frac, goodExp, goodStored, isZero};
ghost use Rattle.rules.specs.Refusals.{toldBy};
ghost use Rattle.rules.specs.Values.{sumCall, timesCall, negationCall, quotientCall};
ghost use Rattle.exponents.specs.Answers.{expOf};
ghost use Rattle.rules.specs.Writing.{twos, signed};

use divisor::common_divisor;
use rules::Refusal;

/// The largest numerator and the largest denominator.
pub const TOP: u64 = 2147483647;

/// A fraction `num / den`. Any numerator and denominator may stand here; the operations refuse what is not well formed.
#[derive(Clone, Copy, PartialEq, Eq)]
pub struct Exponent {
    pub num: i32,
    pub den: u32,
}

impl Exponent {
    /// 0 / 1.
    pub const ZERO: Exponent = Exponent { num: 0, den: 1 };

    /// 1 / 1.
    pub const ONE: Exponent = Exponent { num: 1, den: 1 };

    /// A record's words b and c as an exponent: b is the numerator in two's complement, c the denominator.
    #[tactic(auto, using(crate::proofs::Steps::words))]
    pub fn from_words(b: u32, c: u32) -> Exponent
        ensures { expOf result ≡ frac (signed b) c }
    {
        Exponent {
            num: b.cast_signed(),
            den: c,
        }
    }

    /// The numerator as a word, in two's complement.
    #[tactic(auto, using(crate::proofs::Steps::words))]
    pub fn num_word(self) -> u32
        ensures { result ≡ twos self.num }
    {
        self.num.cast_unsigned()
    }

    /// The constants are the rules' zero and one.
    pub fn constants()
        ensures zero { expOf Exponent.ZERO ≡ nought }
        ensures one { expOf Exponent.ONE ≡ one }
    {}

    /// Is it 1, with the denominator 1?
    pub fn is_one(self) -> bool
        ensures { result ≡ is_yes (Exp-dec (expOf self) one) }
    {
        self == Exponent::ONE
    }

    /// Is the numerator 0?
    pub fn is_zero(self) -> bool
        ensures { result ≡ isZero (expOf self) }
    {
        self.num.unsigned_abs() == 0
    }

    /// Is it in lowest terms and in range? The denominator is 1 or more.
    #[tactic(auto, using(crate::proofs::Steps::tests), unfolding(rules::specs::Exponents::goodExp, rules::specs::Exponents::in_range))]
    pub fn well_formed(self) -> bool
        ensures { result ≡ goodExp (expOf self) }
    {
        let n = u64::from(self.num.unsigned_abs());
        let d = u64::from(self.den);
        if TOP < n || d == 0 || TOP < d {
            return false;
        }
        common_divisor(n, d) == 1
    }

    /// May it stand in a product? So may what is well formed and not 0.
    #[tactic(auto, unfolding(rules::specs::Exponents::goodStored))]
    pub fn is_stored(self) -> bool
        ensures { result ≡ goodStored (expOf self) }
    {
        !self.is_zero() && self.well_formed()
    }

    /// The sum in lowest terms: 1 where a part is not well formed, 7 where the sum is out of range.
    #[tactic(auto, unfolding(rules::specs::Values::sumCall))]
    pub fn add(self, other: Exponent) -> Result<Exponent, Refusal>
        ensures { toldBy expOf result ≡ sumCall (expOf self) (expOf other) }
    {
        if self.well_formed() && other.well_formed() {
            inner::sum_of(self, other)
        } else {
            Err(Refusal::Malformed)
        }
    }

    /// The product in lowest terms: 1 where a part is not well formed, 7 where the product is out of range.
    #[tactic(auto, unfolding(rules::specs::Values::timesCall))]
    pub fn multiply(self, other: Exponent) -> Result<Exponent, Refusal>
        ensures { toldBy expOf result ≡ timesCall (expOf self) (expOf other) }
    {
        if self.well_formed() && other.well_formed() {
            inner::product_of(self, other)
        } else {
            Err(Refusal::Malformed)
        }
    }

    /// The negative: 1 where the number is not well formed.
    #[tactic(auto, using(crate::proofs::Steps::negations), unfolding(rules::specs::Values::negationCall))]
    pub fn negate(self) -> Result<Exponent, Refusal>
        ensures { toldBy expOf result ≡ negationCall (expOf self) }
    {
        if self.well_formed() {
            Ok(inner::negative_of(self))
        } else {
            Err(Refusal::Malformed)
        }
    }

    /// The quotient in lowest terms: 1 where a part is not well formed, 7 where the quotient is out of range, also by 0.
    #[tactic(auto, unfolding(rules::specs::Values::quotientCall))]
    pub fn divide(self, other: Exponent) -> Result<Exponent, Refusal>
        ensures { toldBy expOf result ≡ quotientCall (expOf self) (expOf other) }
    {
        if self.well_formed() && other.well_formed() {
            inner::quotient_of(self, other)
        } else {
            Err(Refusal::Malformed)
        }
    }
}
