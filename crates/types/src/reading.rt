//! What a type is, where it ends, and what it contains.
ghost use Rattle.std.specs.Prelude.{◌≡◌, List, ◌+◌};
ghost use Rattle.rules.specs.Trees.{size, sizeTys};
ghost use Rattle.rules.specs.Contents.{closed, contains};
ghost use Rattle.rules.specs.Names.{Bytes, numbered};
ghost use Rattle.rules.specs.Refusals.{toldOption, toldOptionBy};
ghost use Rattle.rules.specs.Views.{asPower, asVar, productOf};
ghost use Rattle.types.specs.Shapes.{Begins, asked, factors_of, whole, together};

use super::parts::variable;
use super::{Constraint, Demand, Fields, Head, Product, Shape, Type, Types};
use queries::Kind;
use queries::inner::{none_open, occurs};
use records::View;
use records::seen::{length_at, view_at};

impl<'a> Type<'a> {
    /// The place past its last record.
    pub fn end(self) -> usize
        ensures { result ≡ self.entry.at + size self.entry.tree.0 }
    {
        self.at + length_at(self.words, self.at)
    }

    /// How many records it has.
    pub fn len(self) -> usize
        ensures { result ≡ size self.entry.tree.0 }
    {
        length_at(self.words, self.at)
    }

    /// Does it hold no variable and no parameter?
    pub fn is_closed(self) -> bool
        ensures { result ≡ closed self.entry.tree.0 }
    {
        none_open(self.words, self.at, self.end())
    }

    /// Is `x` one of its variables?
    pub fn contains(self, x: u32) -> bool
        ensures { (names : List Bytes) → result ≡ contains (numbered names) x self.entry.tree.0 }
    {
        occurs(self.words, self.at, self.end(), Kind::Variables, x)
    }

    /// The variable that it is, if it is one.
    pub fn variable(self) -> Option<u32>
        ensures { toldOption result ≡ asVar self.entry.tree.0 }
    {
        match view_at(self.words, self.at) {
            View::Opened(o) => variable(o),
            _ => None,
        }
    }

    /// The product, where it is a dimension.
    pub fn dimension(self) -> Option<Product<'a>>
        ensures { toldOptionBy factors_of result ≡ productOf self.entry.tree.0 }
    {
        match view_at(self.words, self.at) {
            View::Dim(count) => {
                let at = self.at + 1;
                let words = self.words;
                Some(Product { words, at, count })
            }
            _ => None,
        }
    }

    /// The variable, where it is a dimension that is one variable to the power 1.
    pub fn power_variable(self) -> Option<u32>
        ensures { toldOption result ≡ asPower self.entry.tree.0 }
    {
        self.dimension()?.variable()
    }

    /// What it is, without a step over its parts. What a function returns is the last of its row: the place where it stands is known only to who goes over the
    /// parameters, as `shape` does.
    pub fn head(self) -> Head<'a>
        ensures { Begins result self.entry.tree.0 }
    {
        let words = self.words;
        let at = self.at + 1;
        match view_at(words, self.at) {
            View::Opened(o) => Head::Open(o),
            View::Basic(b) => Head::Basic(b),
            View::Dim(count) => Head::Dimension(Product { words, at, count }),
            View::Function(count) => {
                let count = count + 1;
                Head::Function(Types { words, at, count })
            }
            View::Struct(name, count, _) => Head::Struct(name, Types { words, at, count }),
            View::List => Head::List(Type { words, at }),
            _ => unreachable!(),
        }
    }

    /// Which type it is, and its parts.
    pub fn shape(self) -> Shape<'a>
        ensures { whole result ≡ self.entry.tree.0 }
    {
        let words = self.words;
        match view_at(words, self.at) {
            View::Opened(o) => Shape::Open(o),
            View::Basic(b) => Shape::Basic(b),
            View::Dim(count) => {
                let at = self.at + 1;
                Shape::Dimension(Product { words, at, count })
            }
            View::Function(count) => {
                let at = self.at + 1;
                let parameters = Types { words, at, count };
                let at = parameters.end();
                Shape::Function(parameters, Type { words, at })
            }
            View::Struct(name, count, many) => {
                let at = self.at + 1;
                let arguments = Types { words, at, count };
                let at = arguments.end();
                let fields = Fields {
                    words,
                    at,
                    count: many,
                };
                Shape::Struct(name, arguments, fields)
            }
            View::List => {
                let at = self.at + 1;
                Shape::List(Type { words, at })
            }
            _ => unreachable!(),
        }
    }
}

impl<'a> Types<'a> {
    /// The first, and those after it.
    pub fn split_first(self) -> Option<(Type<'a>, Types<'a>)>
        ensures { together result ≡ self.entry.trees.0 }
    {
        if self.count == 0 {
            return None;
        }
        let words = self.words;
        let first = Type { words, at: self.at };
        let at = first.end();
        let rest = Types {
            words,
            at,
            count: self.count - 1,
        };
        Some((first, rest))
    }

    /// The place past the last.
    pub fn end(self) -> usize
        ensures { result ≡ self.entry.at + sizeTys self.entry.trees.0 }
    {
        let words = self.words;
        let mut at = self.at;
        'past: for _i in 0..self.count {
            at += length_at(words, at);
        }
        at
    }
}

impl<'a> Constraint<'a> {
    /// What it asks, and of which types.
    pub fn demand(self) -> Demand<'a>
        ensures { asked result ≡ self.entry.tree.0 }
    {
        let words = self.words;
        match view_at(words, self.at) {
            View::Equal => {
                let at = self.at + 1;
                let left = Type { words, at };
                let at = left.end();
                Demand::Equal(left, Type { words, at })
            }
            View::IsDim => {
                let at = self.at + 1;
                Demand::IsDimension(Type { words, at })
            }
            View::IsScalar => {
                let at = self.at + 1;
                let dimension = Type { words, at };
                match dimension.shape() {
                    Shape::Dimension(product) => Demand::IsScalar(product),
                    _ => unreachable!(),
                }
            }
            View::HasField(name) => {
                let at = self.at + 1;
                let of = Type { words, at };
                let at = of.end();
                Demand::HasField(name, of, Type { words, at })
            }
            _ => unreachable!(),
        }
    }
}
