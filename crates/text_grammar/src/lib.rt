//! The rules of the grammar, held against a line.
#![tactic(auto)]

pub mod inner;

ghost use Rattle.std.specs.Prelude.{◌≡◌};
ghost use Rattle.rules.specs.Refusals.{toldBy};
ghost use Rattle.exponents.specs.Answers.{expOf};
ghost use Rattle.text_grammar.specs.Values.{value_of};

use exponents::inner::negative_of;
use exponents::{Exponent, TOP};
use inner::lowest_of;
use rules::Refusal;

/// What a power is worth: 7 where one of its numbers is out of range, else it is reduced.
pub fn power_value(minus: bool, num: u64, den: u64) -> Result<Exponent, Refusal>
    ensures { toldBy expOf result ≡ value_of minus num den }
{
    if TOP < num {
        return Err(Refusal::OutOfRange);
    }
    if den < 1 {
        return Err(Refusal::OutOfRange);
    }
    if TOP < den {
        return Err(Refusal::OutOfRange);
    }
    let e = lowest_of(num, den);
    if minus {
        return Ok(negative_of(e));
    }
    Ok(e)
}
