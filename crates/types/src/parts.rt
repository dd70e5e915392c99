//! Going over types, fields and factors, and a product by value.
ghost use Rattle.std.specs.Prelude.{◌≡◌, List};
ghost use Rattle.std.specs.Iterator.{YieldsFirstBy, item_count};
ghost use Rattle.rules.specs.Base.{and_then};
ghost use Rattle.rules.specs.Contents.{fieldIn};
ghost use Rattle.rules.specs.Names.{Bytes, numbered};
ghost use Rattle.rules.specs.Products.{single};
ghost use Rattle.rules.specs.Refusals.{toldOption, toldOptionBy};
ghost use Rattle.rules.specs.Values.{productValue, value_of};
ghost use Rattle.rules.specs.Views.{variable};
ghost use Rattle.products.specs.Told.{valueIn, given};
ghost use Rattle.records.specs.Holds.{openOf};
ghost use Rattle.types.specs.Shapes.{fields_together, multiplied, factor_of, factors_of, tree_of, trees_of};

use super::{Factor, Fields, Product, Type, Types};
use exponents::Exponent;
use records::seen::view_at;
use records::{Atom, Open, View};

impl<'a> Iterator for Types<'a> {
    type Item = Type<'a>;

    ghost next_gives = { YieldsFirstBy tree_of trees_of };

    ghost remaining = { item_count trees_of };

    fn next(&mut self) -> Option<Type<'a>> {
        let (first, rest) = self.split_first()?;
        *self = rest;
        Some(first)
    }
}

impl<'a> Fields<'a> {
    /// The name and the type of the first, and those after it.
    pub fn split_first(self) -> Option<(u32, Type<'a>, Fields<'a>)>
        ensures { fields_together result ≡ self.entry.trees.0 }
    {
        if self.count == 0 {
            return None;
        }
        let words = self.words;
        match view_at(words, self.at) {
            View::Field(name) => {
                let at = self.at + 1;
                let first = Type { words, at };
                let at = first.end();
                let rest = Fields {
                    words,
                    at,
                    count: self.count - 1,
                };
                Some((name, first, rest))
            }
            _ => unreachable!(),
        }
    }

    /// The type of the field `x`, if there is one.
    pub fn find(self, x: u32) -> Option<Type<'a>>
        ensures { (names : List Bytes) → toldOptionBy tree_of result ≡ fieldIn (numbered names) x self.entry.trees.0 }
    {
        let mut fields = self;
        'fields: while let Some((name, first, rest)) = fields.split_first() {
            if name == x {
                return Some(first);
            }
            fields = rest;
        }
        None
    }
}

/// The variable, where an open name is one.
pub fn variable(o: Open) -> Option<u32>
    ensures { toldOption result ≡ variable (openOf o) }
{
    match o {
        Open::Var(x) => Some(x),
        Open::Quant(_) => None,
        Open::Par(_) => None,
    }
}

impl Factor {
    /// The factor by value.
    #[tactic(auto, unfolding(rules::specs::Values::value_of, rules::specs::Values::kind_of, rules::specs::Values::number_in))]
    pub fn value(self) -> products::Factor
        ensures { valueIn result ≡ value_of (factor_of self) }
    {
        let (kind, name) = match self.atom {
            Atom::Free(Open::Var(x)) => (11, x),
            Atom::Free(Open::Quant(i)) => (15, i),
            Atom::Free(Open::Par(x)) => (12, x),
            Atom::Base(x) => (13, x),
        };
        products::Factor {
            kind,
            name,
            exp: Exponent::from_words(self.num, self.den),
        }
    }
}

impl<'a> Product<'a> {
    /// The first factor, and those after it.
    pub fn split_first(self) -> Option<(Factor, Product<'a>)>
        ensures { multiplied result ≡ self.entry.factors.0 }
    {
        if self.count == 0 {
            return None;
        }
        let words = self.words;
        match view_at(words, self.at) {
            View::Factor(atom, num, den) => {
                let at = self.at + 1;
                let rest = Product {
                    words,
                    at,
                    count: self.count - 1,
                };
                Some((Factor { atom, num, den }, rest))
            }
            _ => unreachable!(),
        }
    }

    /// The product by value. Past the 64th factor it counts them.
    pub fn value(self) -> products::Product
        ensures { given result ≡ productValue self.entry.factors.0 }
    {
        let mut out = products::Product::scalar();
        'factors: for factor in self {
            out.push(factor.value());
        }
        out
    }

    /// The variable, where it is one variable to the power 1.
    pub fn variable(self) -> Option<u32>
        ensures { toldOption result ≡ and_then (single self.entry.factors.0) variable }
    {
        variable(self.alone()?)
    }
}

impl<'a> Iterator for Product<'a> {
    type Item = Factor;

    ghost next_gives = { YieldsFirstBy factor_of factors_of };

    ghost remaining = { item_count factors_of };

    fn next(&mut self) -> Option<Factor> {
        let (first, rest) = self.split_first()?;
        *self = rest;
        Some(first)
    }
}
