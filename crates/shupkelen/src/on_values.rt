//! The calls on exponents. A numerator is answered in two's complement.
ghost use Rattle.std.specs.Prelude.{◌≡◌};
ghost use Rattle.rules.specs.Exponents.{frac};
ghost use Rattle.exponents.specs.Answers.{expOf};
ghost use Rattle.rules.specs.Values.{sumCall, timesCall, negationCall, quotientCall};
ghost use Rattle.shupkelen.specs.Exports.{out, powerOut};

use calls_defined::told::powered;
use exponents::Exponent;
use library_words::hand;

// An exponent from its numerator and its denominator.
fn exponent(num: i32, den: u32) -> Exponent
    ensures { expOf result ≡ frac num den }
{
    Exponent { num, den }
}

/// The sum of two exponents, fractions in lowest terms: says its numerator in two's complement, and its denominator. Refuses with 1 (one is not well
/// formed) and 7 (out of range: numerators and denominators are at most 2,147,483,647).
#[unsafe(no_mangle)]
pub extern "C" fn shupkelen_exponent_add(
    num: i32,
    den: u32,
    num2: i32,
    den2: u32,
    answer: &mut [u32],
) -> u32
    ensures { out result answer.new tt ≡ powerOut (sumCall (frac num den) (frac num2 den2)) answer.old }
{
    hand(
        powered(exponent(num, den).add(exponent(num2, den2))),
        answer,
    )
}

/// The product of two exponents. Says and refuses as the sum does.
#[unsafe(no_mangle)]
pub extern "C" fn shupkelen_exponent_multiply(
    num: i32,
    den: u32,
    num2: i32,
    den2: u32,
    answer: &mut [u32],
) -> u32
    ensures { out result answer.new tt ≡ powerOut (timesCall (frac num den) (frac num2 den2)) answer.old }
{
    hand(
        powered(exponent(num, den).multiply(exponent(num2, den2))),
        answer,
    )
}

/// The negative of an exponent. Says as the sum does. Refuses with 1.
#[unsafe(no_mangle)]
pub extern "C" fn shupkelen_exponent_negate(num: i32, den: u32, answer: &mut [u32]) -> u32
    ensures { out result answer.new tt ≡ powerOut (negationCall (frac num den)) answer.old }
{
    hand(powered(exponent(num, den).negate()), answer)
}

/// The quotient of two exponents. Says and refuses as the sum does, with 7 also where the divisor is 0.
#[unsafe(no_mangle)]
pub extern "C" fn shupkelen_exponent_divide(
    num: i32,
    den: u32,
    num2: i32,
    den2: u32,
    answer: &mut [u32],
) -> u32
    ensures { out result answer.new tt ≡ powerOut (quotientCall (frac num den) (frac num2 den2)) answer.old }
{
    hand(
        powered(exponent(num, den).divide(exponent(num2, den2))),
        answer,
    )
}
