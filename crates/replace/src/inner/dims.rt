//! Replacing in products: each factor whose name becomes a type goes, and that type comes in its place as a dimension.
ghost use Rattle.std.specs.Prelude.{◌≡◌, ℕ, [], ◌∷◌};
ghost use Rattle.std.proofs.Math.Option.{some};
ghost use Rattle.rules.specs.Refusals.{toldBy, toldOptionBy};
ghost use Rattle.rules.specs.Replacing.{asProduct};
ghost use Rattle.rules.specs.Base.{any};
ghost use Rattle.rules.specs.Exponents.{Exp};
ghost use Rattle.rules.specs.Trees.{Factor as FactorTree, ◌↑◌, dim, opened, openOfFactor, opens};
ghost use Rattle.rules.specs.Values.{productValue, value_of};
ghost use Rattle.products.specs.Told.{Tree, given, answer, tree_of, valueIn, heldIn};
ghost use Rattle.products.specs.Kinds.{Fine};
ghost use Rattle.records.specs.Holds.{atomOf, openOf};
ghost use Rattle.types.specs.Shapes.{tree_of as type_of};
ghost use Rattle.replace.specs.Well.{names as numbers, GoodTy, Whole};
ghost use Rattle.replace.specs.Leaves.{productBy, replaced};
ghost use Rattle.replace.specs.InProducts.{put_in, atomLooked};

use super::factors::{free_factor, open_of};
use crate::substitution::Substitution;
use exponents::Exponent;
use names::tables::NameTable;
use products::inner::{divided, multiplied, raised};
use products::{Factor, Product};
use records::{Atom, Open};
use rules::Refusal;
use types::{Shape, Type};

/// The product of one factor.
fn only(f: Factor) -> Product
    ensures { (t : FactorTree ℕ) → valueIn f ≡ value_of t → given result ≡ productValue (t ∷ []) }
{
    let mut p = Product::scalar();
    p.push(f);
    p
}

/// A variable as a product, at the power 1; a parameter is 6.
fn just(o: Open) -> Result<Product, Refusal>
    ensures { toldBy given result ≡ answer (asProduct (opened (openOf o))) }
{
    match o {
        Open::Var(_) | Open::Quant(_) => Ok(only(free_factor(o, Exponent::ONE))),
        Open::Par(_) => Err(Refusal::NotDimension),
    }
}

/// A bound type as a product: a variable counts as that variable, and any other type but a dimension is 6.
fn as_product(t: Type) -> Result<Product, Refusal>
    ensures { toldBy given result ≡ answer (asProduct t.entry.tree.0) }
{
    match t.shape() {
        Shape::Open(o) => just(o),
        Shape::Dimension(p) => Ok(p.value()),
        _ => Err(Refusal::NotDimension),
    }
}

/// Divides by the factor, and multiplies by the bound type at its power.
fn put_in(names: NameTable, acc: &Product, f: Factor, t: Type) -> Result<Product, Refusal>
    requires whole { (a : Tree) × Whole names.pool.now names.table.now acc.now a }
    requires fine { Fine (numbers names.pool.now names.table.now) (heldIn names.table.now) f }
    requires good { GoodTy names.pool.now names.table.now t.tree.0 }
    ensures { (a : Tree) → Whole names.entry.pool.now names.entry.table.now acc.now a →
        toldBy given result ≡ answer (put_in (numbers names.entry.pool.now names.entry.table.now) (some t.entry.tree.0) (tree_of f) a) }
{
    let bound = as_product(t)?;
    let left = divided(acc, &only(f), names)?;
    let more = raised(&bound, f.exp)?;
    multiplied(&left, &more, names)
}

impl<'a> Substitution<'a> {
    /// Is the name of a factor replaced?
    fn replaces(self, a: Atom) -> bool
        ensures { (e : Exp) → result ≡ any (replaced self.entry.lent.0) (openOfFactor (atomOf a ↑ e)) }
    {
        match a {
            Atom::Free(o) => self.look_up(o).is_some(),
            Atom::Base(_) => false,
        }
    }

    /// Is the name of one of the factors replaced?
    pub fn touches_product(self, p: types::Product) -> bool
        ensures { result ≡ any (replaced self.entry.lent.0) (opens (dim p.entry.factors.0)) }
    {
        'factors: for factor in p {
            if self.replaces(factor.atom) {
                return true;
            }
        }
        false
    }

    /// The type that a factor's name becomes; nothing where it stays.
    fn bound(self, f: Factor) -> Option<Type<'a>>
        ensures { toldOptionBy type_of result ≡ atomLooked self.entry.lent.0 (tree_of f) }
    {
        self.look_up(open_of(f)?)
    }
}

/// Replaces in a product, for each factor in stored order. A factor whose name becomes a type is replaced, any other stays.
pub fn replace_factors(by: Substitution, p: &Product) -> Result<Product, Refusal>
    requires whole { (a : Tree) × Whole by.names.pool.now by.names.table.now p.now a }
    ensures { (a : Tree) → Whole by.entry.names.pool.now by.entry.names.table.now p.now a →
        toldBy given result ≡ answer (productBy by.entry a) }
{
    let mut acc = *p;
    for i in 0..p.len {
        let f = p.factors[i];
        if let Some(t) = by.bound(f) {
            acc = put_in(by.names, &acc, f, t)?;
        }
    }
    Ok(acc)
}
