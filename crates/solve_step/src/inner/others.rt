//! The rules for constraints other than equalities.
ghost use Rattle.std.specs.Prelude.{◌≡◌, true, List, [], ◌∷◌, ◌+◌, ◌≤◌, ◌<◌, length};
ghost use Rattle.std.proofs.Math.Option.{get_or};
ghost use Rattle.rules.specs.Base.{bounded, collect, each, got};
ghost use Rattle.rules.specs.Exponents.{Exp, frac, goodExp, neg, quotient};
ghost use Rattle.rules.specs.Names.{Bytes, numbered};
ghost use Rattle.rules.specs.Refusals.{toldBy, toldOption};
ghost use Rattle.rules.specs.Rounds.{stuck, dimensionParts, otherSide, fieldStep, trySatisfy};
ghost use Rattle.rules.specs.Trees.{is_scalar, size};
ghost use Rattle.rules.specs.Views.{productOf};
ghost use Rattle.rules.specs.Writing.{signed, writeCon};
ghost use Rattle.laws.specs.RuleCases.{parts};
ghost use Rattle.exponents.specs.Answers.{expOf};
ghost use Rattle.records.specs.Holds.{atomOf};
ghost use Rattle.types.specs.Written.{Writes};
ghost use Rattle.solve_step.specs.Parts.{freeVariable, freeName, isDimOf, GoodPowers, boundTo};
ghost use Rattle.solve_step.specs.Applied.{Applied, FactorsPut};

use super::super::Step;
use exponents::Exponent;
use exponents::inner::{negative_of, quotient_of};
use records::{Atom, Open, View};
use rules::Refusal;
use types::writer::Writer;
use types::{Factor, Product, Shape, Type};

/// The variable that a factor is a power of.
fn variable_of(a: Atom) -> Option<u32>
    ensures { toldOption result ≡ freeVariable (atomOf a) }
{
    match a {
        Atom::Free(o) => match o {
            Open::Var(x) => Some(x),
            Open::Quant(_) => None,
            Open::Par(_) => None,
        },
        Atom::Base(_) => None,
    }
}

/// The variable or the parameter that a factor is a power of.
fn name_of(a: Atom) -> Option<u32>
    ensures { toldOption result ≡ freeName (atomOf a) }
{
    match a {
        Atom::Free(o) => match o {
            Open::Var(x) => Some(x),
            Open::Quant(_) => None,
            Open::Par(x) => Some(x),
        },
        Atom::Base(_) => None,
    }
}

/// For each factor that is a power of a variable or of a parameter: that its name stands for a dimension.
fn put_parts(product: Product, out: &mut Writer)
    ensures { Writes out.old out.new (collect writeCon (parts product.entry.factors.0)) }
{
    'factors: for factor in product {
        if let Some(x) = name_of(factor.atom) {
            out.put(View::IsDim, 2);
            out.put(View::Opened(Open::Var(x)), 1);
        }
    }
}

/// Is-dimension of a dimension: one for each variable or parameter named in it.
pub fn is_dimension(of: Type, out: &mut Writer) -> Step
    ensures { Applied out.old out.new (Ok result) (got (dimensionParts (productOf of.entry.tree.0))) }
{
    match of.shape() {
        Shape::Dimension(product) => {
            put_parts(product, out);
            Step::Split(out.at)
        }
        _ => Step::Stuck,
    }
}

/// The power -j/k of a factor with the power j.
fn other_power(factor: Factor, k: Exponent) -> Result<Exponent, Refusal>
    requires { (goodExp (frac (signed factor.num) factor.den) ≡ true) × (goodExp (expOf k) ≡ true) }
    ensures { toldBy expOf result ≡ quotient bounded (neg (frac (signed factor.num) factor.den)) (expOf k) }
{
    quotient_of(negative_of(Exponent::from_words(factor.num, factor.den)), k)
}

/// Factors with the power -j/k for each power j.
fn put_others(k: Exponent, others: Product, out: &mut Writer) -> Result<(), Refusal>
    requires power { goodExp (expOf k) ≡ true }
    requires powers_good { GoodPowers others.factors.0 }
    ensures { FactorsPut out.old out.new result (each (otherSide bounded (expOf k)) others.entry.factors.0) }
{
    let Some((factor, rest)) = others.split_first() else {
        return Ok(());
    };
    let e = other_power(factor, k)?;
    out.put(View::Factor(factor.atom, e.num_word(), e.den), 1);
    put_others(k, rest, out)
}

/// Binds `x` to the other factors of a product that is to be scalar and whose first factor is `x` to the power k.
fn solve_for(x: u32, k: Exponent, others: Product, out: &mut Writer) -> Result<Step, Refusal>
    requires power { goodExp (expOf k) ≡ true }
    requires powers_good { GoodPowers others.factors.0 }
    requires short { length others.factors.0 ≤ 65_000 }
    ensures { Applied out.old out.new result (boundTo x (each (otherSide bounded (expOf k)) others.entry.factors.0)) }
{
    let n = others.count as usize;
    out.put(View::Binding(x), 2 + n);
    out.put(View::Dim(others.count), 1 + n);
    put_others(k, others, out)?;
    Ok(Step::Bind(out.at))
}

/// Equal-scalar: without factors done; a variable that comes first is bound to the other factors.
pub fn equal_scalar(product: Product, out: &mut Writer) -> Result<Step, Refusal>
    requires powers_good { GoodPowers product.factors.0 }
    requires short { length product.factors.0 ≤ 65_000 }
    ensures { (names : List Bytes) → Applied out.old out.new result (trySatisfy (numbered names) bounded (is_scalar product.entry.factors.0)) }
{
    let Some((first, others)) = product.split_first() else {
        return Ok(Step::Done);
    };
    let Some(x) = variable_of(first.atom) else {
        return Ok(Step::Stuck);
    };
    solve_for(x, Exponent::from_words(first.num, first.den), others, out)
}

/// Has-field on a closed struct with that field: the stored type equal to the asked type.
pub fn has_field(of: Type, x: u32, to: Type, out: &mut Writer) -> Step
    requires { size of.tree.0 + size to.tree.0 < 65_000 }
    ensures { (names : List Bytes) → Applied out.old out.new (Ok result) (got (get_or (fieldStep (numbered names) x of.entry.tree.0 to.entry.tree.0) stuck)) }
{
    if !of.is_closed() {
        return Step::Stuck;
    }
    let Shape::Struct(_, _, fields) = of.shape() else {
        return Step::Stuck;
    };
    let Some(stored) = fields.find(x) else {
        return Step::Stuck;
    };
    out.equal(stored, to);
    Step::Split(out.at)
}
