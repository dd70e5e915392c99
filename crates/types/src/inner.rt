//! Steps that ask something of what they write: that a product is sound, that two types together are short enough for the length to have a word.
ghost use Rattle.std.specs.Prelude.{◌≡◌, ◌+◌, ◌<◌};
ghost use Rattle.rules.specs.Base.{collect};
ghost use Rattle.rules.specs.Trees.{equal, size, sizeTys};
ghost use Rattle.rules.specs.Rounds.{pairs};
ghost use Rattle.rules.specs.Writing.{writeFactor, writeProduct, writeCon};
ghost use Rattle.products.specs.Told.{productOf, tree_of};
ghost use Rattle.products.specs.Kinds.{Kind};
ghost use Rattle.products.specs.Held.{Sound};
ghost use Rattle.records.specs.Views.{recOf};
ghost use Rattle.types.specs.Written.{Writes};

use super::writer::Writer;
use super::{Type, Types};
use records::{Atom, Open, View};

/// The record that is a factor.
fn record_of(f: products::Factor) -> View
    requires { Kind f.kind }
    ensures { recOf result 1 ≡ writeFactor (tree_of f) }
{
    let name = f.name;
    let num = f.exp.num_word();
    let den = f.exp.den;
    match f.kind {
        11 => View::Factor(Atom::Free(Open::Var(name)), num, den),
        12 => View::Factor(Atom::Free(Open::Par(name)), num, den),
        15 => View::Factor(Atom::Free(Open::Quant(name)), num, den),
        _ => View::Factor(Atom::Base(name), num, den),
    }
}

impl Writer<'_> {
    /// The records of a product: its count of factors, and the factors.
    pub fn product(&mut self, p: &products::Product)
        requires { Sound p.now }
        ensures { Writes self.old self.new (writeProduct (productOf p.now)) }
    {
        self.put(View::Dim(p.len as u32), 1 + p.len);
        for i in 0..p.len {
            self.put(record_of(p.factors[i]), 1);
        }
    }

    /// That two types are equal.
    pub fn equal(&mut self, left: Type, right: Type)
        requires short { size left.tree.0 + size right.tree.0 < 65_535 }
        ensures { Writes self.old self.new (writeCon (equal left.entry.tree.0 right.entry.tree.0)) }
    {
        self.put(View::Equal, 1 + left.len() + right.len());
        self.copy(left);
        self.copy(right);
    }

    /// That types are equal pairwise, as far as both go.
    pub fn pairs(&mut self, left: Types, right: Types)
        requires short { sizeTys left.trees.0 + sizeTys right.trees.0 < 65_535 }
        ensures { Writes self.old self.new (collect writeCon (pairs left.entry.trees.0 right.entry.trees.0)) }
    {
        let mut ts = left;
        let mut us = right;
        'pairs: while let (Some((t, more)), Some((u, others))) = (
            ts.split_first(),
            us.split_first(),
        ) {
            self.equal(t, u);
            ts = more;
            us = others;
        }
    }
}
