//! Which types are the same, and the variable that a product is.
ghost use Rattle.std.specs.Prelude.{◌≡◌, List};
ghost use Rattle.rules.specs.Base.{is_yes};
ghost use Rattle.rules.specs.Names.{Bytes, numbered};
ghost use Rattle.rules.specs.Products.{single};
ghost use Rattle.rules.specs.Refusals.{toldOptionBy};
ghost use Rattle.rules.specs.Trees.{ty-dec};
ghost use Rattle.rules.specs.Writing.{words, writeTy};
ghost use Rattle.records.specs.Holds.{openOf};

use super::{Product, Type};
use exponents::Exponent;
use records::{Atom, Open};

impl<'a> Type<'a> {
    /// The words of its records.
    fn record_words(self) -> &'a [u32]
        ensures { result.now ≡ words (writeTy self.entry.tree.0) }
    {
        &self.words[self.at * 4..self.end() * 4]
    }

    /// Are they the same type? They are where their records are the same words, since a type's records say all of it.
    pub fn same(self, other: Type) -> bool
        ensures { (names : List Bytes) → result ≡ is_yes (ty-dec (numbered names) self.entry.tree.0 other.entry.tree.0) }
    {
        self.record_words() == other.record_words()
    }
}

impl<'a> Product<'a> {
    /// The variable that the dimension is, where it is one to the power 1.
    pub fn alone(self) -> Option<Open>
        ensures { toldOptionBy openOf result ≡ single self.entry.factors.0 }
    {
        if self.count != 1 {
            return None;
        }
        let Some((f, _)) = self.split_first() else {
            return None;
        };
        if !Exponent::from_words(f.num, f.den).is_one() {
            return None;
        }
        match f.atom {
            Atom::Free(o) => match o {
                Open::Var(_) => Some(o),
                Open::Quant(_) => Some(o),
                Open::Par(_) => None,
            },
            Atom::Base(_) => None,
        }
    }
}
