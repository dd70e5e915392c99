//! Factors by value.
ghost use Rattle.std.specs.Prelude.{◌≡◌};
ghost use Rattle.rules.specs.Refusals.{toldOptionBy};
ghost use Rattle.rules.specs.Trees.{◌↑◌, free};
ghost use Rattle.rules.specs.Values.{value_of};
ghost use Rattle.exponents.specs.Answers.{expOf};
ghost use Rattle.products.specs.Told.{valueIn, tree_of};
ghost use Rattle.records.specs.Holds.{openOf};
ghost use Rattle.replace.specs.Opened.{open_in};

use exponents::Exponent;
use products::Factor;
use records::Open;

/// The power of an open name, as a factor.
pub fn free_factor(o: Open, exp: Exponent) -> Factor
    ensures { valueIn result ≡ value_of (free (openOf o) ↑ expOf exp) }
{
    match o {
        Open::Var(x) => Factor {
            kind: 11,
            name: x,
            exp,
        },
        Open::Quant(i) => Factor {
            kind: 15,
            name: i,
            exp,
        },
        Open::Par(x) => Factor {
            kind: 12,
            name: x,
            exp,
        },
    }
}

/// The open name of a factor; a base dimension has none.
pub fn open_of(f: Factor) -> Option<Open>
    ensures { toldOptionBy openOf result ≡ open_in (tree_of f) }
{
    match f.kind {
        11 => Some(Open::Var(f.name)),
        12 => Some(Open::Par(f.name)),
        15 => Some(Open::Quant(f.name)),
        _ => None,
    }
}
