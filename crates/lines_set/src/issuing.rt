//! The constraints of one step.
ghost use Rattle.std.specs.Prelude.{◌≡◌, List, [], ◌∷◌, ◌++◌, ℕ};
ghost use Rattle.rules.specs.Base.{collect};
ghost use Rattle.rules.specs.Trees.{var, free, ◌↑◌, Names, basic, boolean, dim, equal, isDim};
ghost use Rattle.rules.specs.Names.{table_of, numbersOf};
ghost use Rattle.rules.specs.Writing.{writeFactor, writeTy, writeCon};
ghost use Rattle.rules.specs.Steps.{adds, compares, gives, raised, chosen};
ghost use Rattle.rules.specs.Lines.{its, dimensions, twoFactors, issuedByTwo, issued};
ghost use Rattle.types.specs.Written.{Writes};
ghost use Rattle.exponents.specs.Answers.{expOf};
ghost use Rattle.lines_entry.specs.Told.{treeOf, twoOf};
ghost use Rattle.lines_set.specs.Deeds.{deedOf};

use super::deeds::Deed;
use exponents::Exponent;
use lines_entry::inner::steps::{Given, Two};
use names::tables::NameTable;
use records::{Atom, Basic, Open, View};
use std::cmp::Ordering;
use types::writer::Writer;

// The power of the right operand in a quotient.
const MINUS_ONE: Exponent = Exponent { num: -1, den: 1 };

// A variable: one record.
fn put_its(x: u32, out: &mut Writer)
    ensures { Writes out.old out.new (writeTy (its x)) }
{
    out.put(View::Opened(Open::Var(x)), 1);
}

// That x is a dimension.
fn put_is_dim(x: u32, out: &mut Writer)
    ensures { Writes out.old out.new (writeCon (isDim (its x))) }
{
    out.put(View::IsDim, 2);
    put_its(x, out);
}

// That x and y are equal.
fn put_same(x: u32, y: u32, out: &mut Writer)
    ensures { Writes out.old out.new (writeCon (equal (its x) (its y))) }
{
    out.put(View::Equal, 3);
    put_its(x, out);
    put_its(y, out);
}

// That x is a boolean.
fn put_boolean(x: u32, out: &mut Writer)
    ensures { Writes out.old out.new (writeCon (equal (its x) (basic boolean))) }
{
    out.put(View::Equal, 3);
    put_its(x, out);
    out.put(View::Basic(Basic::Boolean), 1);
}

// That both operands are dimensions.
fn put_dimensions(l: u32, r: u32, out: &mut Writer)
    ensures { Writes out.old out.new (collect writeCon (dimensions l r)) }
{
    put_is_dim(l, out);
    put_is_dim(r, out);
}

// Adding and subtracting: both are dimensions, and the same; so is what comes out.
fn put_sum(v: u32, l: u32, r: u32, out: &mut Writer)
    ensures { (ν : Names ℕ) → Writes out.old out.new (collect writeCon (issuedByTwo ν v adds l r)) }
{
    put_dimensions(l, r, out);
    put_same(l, r, out);
    put_same(v, l, out);
}

// Comparing: both are dimensions, and the same; a boolean comes out.
fn put_comparison(v: u32, l: u32, r: u32, out: &mut Writer)
    ensures { (ν : Names ℕ) → Writes out.old out.new (collect writeCon (issuedByTwo ν v compares l r)) }
{
    put_dimensions(l, r, out);
    put_same(l, r, out);
    put_boolean(v, out);
}

// Choosing: by a boolean, between two that are the same; so is what comes out.
fn put_choice(v: u32, c: u32, l: u32, r: u32, out: &mut Writer)
    ensures { (ν : Names ℕ) → Writes out.old out.new (collect writeCon (issued ν v (chosen c l r))) }
{
    put_boolean(c, out);
    put_same(l, r, out);
    put_same(v, l, out);
}

// A constant and a reference: what comes out is the type.
fn put_given(v: u32, given: Given, out: &mut Writer)
    ensures { (ν : Names ℕ) → Writes out.old out.new (collect writeCon (issued ν v (gives (treeOf given.entry)))) }
{
    out.put(View::Equal, 2 + given.of.len());
    put_its(v, out);
    out.copy(given.of);
}

// A variable to a power, as a factor.
fn put_factor(x: u32, e: Exponent, out: &mut Writer)
    ensures { Writes out.old out.new (writeFactor (free (var x) ↑ expOf e) ∷ []) }
{
    out.put(
        View::Factor(Atom::Free(Open::Var(x)), e.num_word(), e.den),
        1,
    );
}

// Two powers, as a product.
fn put_pair(x: u32, a: Exponent, y: u32, b: Exponent, out: &mut Writer)
    ensures { Writes out.old out.new (writeTy (dim (free (var x) ↑ expOf a ∷ free (var y) ↑ expOf b ∷ []))) }
{
    out.put(View::Dim(2), 3);
    put_factor(x, a, out);
    put_factor(y, b, out);
}

// The left operand times the right one to a power, in the order of their names.
fn put_factors(names: NameTable, l: u32, r: u32, e: Exponent, out: &mut Writer)
    ensures { let t = table_of names.entry.pool.now names.entry.table.now in Writes out.old out.new (writeTy (dim (twoFactors (numbersOf t) l r (expOf e)))) }
{
    match names.order(l, r) {
        Ordering::Less => put_pair(l, Exponent::ONE, r, e, out),
        Ordering::Equal => put_pair(l, Exponent::ONE, r, e, out),
        Ordering::Greater => put_pair(r, e, l, Exponent::ONE, out),
    }
}

// Multiplying and dividing, by the right operand's power: both are dimensions, and what comes out is their product.
fn put_product(names: NameTable, v: u32, l: u32, r: u32, e: Exponent, out: &mut Writer)
    ensures { let t = table_of names.entry.pool.now names.entry.table.now in
        Writes out.old out.new (collect writeCon (dimensions l r ++ equal (its v) (dim (twoFactors (numbersOf t) l r (expOf e))) ∷ [])) }
{
    put_dimensions(l, r, out);
    out.put(View::Equal, 5);
    put_its(v, out);
    put_factors(names, l, r, e, out);
}

// Raising: x is a dimension, and what comes out is its power, the scalar for 0.
fn put_power(v: u32, e: Exponent, x: u32, out: &mut Writer)
    ensures { (ν : Names ℕ) → Writes out.old out.new (collect writeCon (issued ν v (raised (expOf e) x))) }
{
    put_is_dim(x, out);
    if e.is_zero() {
        out.put(View::Equal, 3);
        put_its(v, out);
        out.put(View::Dim(0), 1);
    } else {
        out.put(View::Equal, 4);
        put_its(v, out);
        out.put(View::Dim(1), 2);
        put_factor(x, e, out);
    }
}

// What is done with two operands.
fn put_joined(names: NameTable, v: u32, two: Two, l: u32, r: u32, out: &mut Writer)
    ensures { let t = table_of names.entry.pool.now names.entry.table.now in
        Writes out.old out.new (collect writeCon (issuedByTwo (numbersOf t) v (twoOf two) l r)) }
{
    match two {
        Two::Adds => put_sum(v, l, r, out),
        Two::Subtracts => put_sum(v, l, r, out),
        Two::Multiplies => put_product(names, v, l, r, Exponent::ONE, out),
        Two::Divides => put_product(names, v, l, r, MINUS_ONE, out),
        Two::Compares => put_comparison(v, l, r, out),
    }
}

/// What the step with the variable v adds to the set.
pub fn put_deed(names: NameTable, v: u32, deed: Deed, out: &mut Writer)
    ensures { let t = table_of names.entry.pool.now names.entry.table.now in
        Writes out.old out.new (collect writeCon (issued (numbersOf t) v (deedOf deed.entry))) }
{
    match deed {
        Deed::Gives(given) => put_given(v, given, out),
        Deed::Raised(exponent, x) => put_power(v, exponent, x, out),
        Deed::Joined(two, left, right) => put_joined(names, v, two, left, right, out),
        Deed::Chosen(condition, left, right) => put_choice(v, condition, left, right, out),
    }
}
