// The work on products that were tested before, with a pool and a table that were tested before.
ghost use Rattle.std.specs.Prelude.{◌≡◌, true, ◌++◌, ◌^◌, length, drop};
ghost use Prim.Native.Nat.{ℕ, ◌<◌, ◌≤◌, ◌+◌, compare};
ghost use Rattle.rules.specs.Base.{and', bounded, within};
ghost use Rattle.rules.specs.Exponents.{goodExp};
ghost use Rattle.rules.specs.Names.{table_of, numbersOf};
ghost use Rattle.rules.specs.Products.{inverse, multiply, divide, raise};
ghost use Rattle.rules.specs.Refusals.{toldBy};
ghost use Rattle.rules.specs.Trees.{Names, orderAtom};
ghost use Rattle.rules.specs.Values.{productValue, productGiven, atomIn};
ghost use Rattle.laws.specs.GoodProducts.{goodAtom};
ghost use Rattle.exponents.specs.Answers.{expOf};
ghost use Rattle.names.specs.Told.{toldOrder};
ghost use Rattle.products.specs.Told.{Tree, given, answer, rank_of, heldIn, fine, atomAt, productOf, kept_of, put_of, isGot};
ghost use Rattle.products.specs.Kinds.{Fine};
ghost use Rattle.products.specs.Held.{Sound, Well};

use super::{Factor, Product};
use exponents::Exponent;
use names::tables::NameTable;
use rules::{FACTORS, Refusal};
use std::cmp::Ordering;

// Named variables, quantified variables, parameters, base dimensions.
fn rank(kind: u32) -> u32
    ensures { result ≡ rank_of kind }
{
    match kind {
        11 => 0,
        15 => 1,
        12 => 2,
        _ => 3,
    }
}

// Is it the kind of a factor, and its name held?
fn is_named(kind: u32, name: u32, names: NameTable) -> bool
    ensures { (ν : Names ℕ) → result ≡ and' (atomIn kind name) (goodAtom ν (heldIn names.entry.table.now) 4294967296) }
{
    match kind {
        11 | 12 | 13 => names.is_held(name),
        15 => true,
        _ => false,
    }
}

fn is_sound(f: Factor, names: NameTable) -> bool
    ensures { (ν : Names ℕ) → result ≡ fine ν (heldIn names.entry.table.now) f }
{
    if is_named(f.kind, f.name, names) {
        f.exp.is_stored()
    } else {
        false
    }
}

#[tactic(auto, using(names::proofs::Told::ordered))]
fn order_numbers(m: u32, n: u32) -> Ordering
    ensures { toldOrder result ≡ compare m n }
{
    m.cmp(&n)
}

// The order of factors: by kind, then by name bytes or by index.
pub fn order(x: Factor, y: Factor, names: NameTable) -> Ordering
    requires left { Fine (numbersOf (table_of names.pool.now names.table.now)) (heldIn names.table.now) x }
    requires right { Fine (numbersOf (table_of names.pool.now names.table.now)) (heldIn names.table.now) y }
    ensures { toldOrder result ≡ orderAtom (numbersOf (table_of names.entry.pool.now names.entry.table.now)) (atomAt x) (atomAt y) }
{
    match order_numbers(rank(x.kind), rank(y.kind)) {
        Ordering::Less => Ordering::Less,
        Ordering::Greater => Ordering::Greater,
        Ordering::Equal => {
            if x.kind == 15 {
                return order_numbers(x.name, y.name);
            }
            names.order(x.name, y.name)
        }
    }
}

impl Product {
    /// One factor more. Past the 64th it is counted and not kept. A count that can still grow is asked for: no product that is put together comes near it.
    pub fn push(&mut self, f: Factor)
        requires { self.old.len < 2 ^ 32 }
        ensures { self.new ≡ put_of self.old f }
    {
        let n = self.len;
        if n < FACTORS {
            self.factors[n] = f;
        }
        self.len = n + 1;
    }

    // One factor more, with this power, unless the power is 0.
    fn keep(&mut self, x: Factor, e: Exponent)
        requires { self.old.len < 1000 }
        ensures { self.new ≡ kept_of self.old x e }
    {
        if !e.is_zero() {
            self.push(Factor { exp: e, ..x });
        }
    }

    // The factors of p from a place on, behind those that are here.
    fn append(&mut self, p: &Product, from: usize)
        requires sound { Sound p.now }
        requires room { (self.old.len ≤ 128) × (from ≤ p.now.len) }
        ensures { (acc : Tree) → given self.old ≡ productValue acc → given self.new ≡ productValue (acc ++ drop from (productOf p.now)) }
    {
        for i in from..p.len {
            self.push(p.factors[i]);
        }
    }
}

// Over 64 factors left is 8.
#[tactic(auto, using(crate::proofs::Calls::counting), unfolding(crate::specs::Told::answer))]
fn counted(p: Product) -> Result<Product, Refusal>
    ensures { (acc : Tree) → given p ≡ productValue acc → toldBy given result ≡ answer (within bounded (length acc) 64 acc) }
{
    if FACTORS < p.len {
        return Err(Refusal::TooLarge);
    }
    Ok(p)
}

// Merges the two lists, adds exponents and drops zeros.
pub fn multiplied(a: &Product, b: &Product, names: NameTable) -> Result<Product, Refusal>
    requires left { Well names.pool.now names.table.now a.now }
    requires right { Well names.pool.now names.table.now b.now }
    ensures { toldBy given result ≡
        answer (multiply (numbersOf (table_of names.entry.pool.now names.entry.table.now)) bounded (productOf a.now) (productOf b.now)) }
{
    let m = a.len;
    let n = b.len;
    let mut out = Product::scalar();
    let mut i = 0;
    let mut j = 0;
    while i < m && j < n {
        let x = a.factors[i];
        let y = b.factors[j];
        match order(x, y, names) {
            Ordering::Less => {
                out.push(x);
                i += 1;
            }
            Ordering::Greater => {
                out.push(y);
                j += 1;
            }
            Ordering::Equal => {
                let e = exponents::inner::sum_of(x.exp, y.exp)?;
                out.keep(x, e);
                i += 1;
                j += 1;
            }
        }
    }
    out.append(a, i);
    out.append(b, j);
    counted(out)
}

// Each power's sign turned.
pub fn inverted(a: &Product) -> Product
    requires { Sound a.now }
    ensures { given result ≡ productValue (inverse (productOf a.now)) }
{
    let mut out = Product::scalar();
    for x in &a.factors[..a.len] {
        let exp = exponents::inner::negative_of(x.exp);
        out.push(Factor { exp, ..*x });
    }
    out
}

// Multiplies each exponent and drops zeros.
pub fn raised(a: &Product, e: Exponent) -> Result<Product, Refusal>
    requires sound { Sound a.now }
    requires power { goodExp (expOf e) ≡ true }
    ensures { (ν : Names ℕ) → toldBy given result ≡ answer (raise ν bounded (productOf a.now) (expOf e)) }
{
    let mut out = Product::scalar();
    for i in 0..a.len {
        let x = a.factors[i];
        let k = exponents::inner::product_of(x.exp, e)?;
        out.keep(x, k);
    }
    Ok(out)
}

// Multiplies by the inverse.
pub fn divided(a: &Product, b: &Product, names: NameTable) -> Result<Product, Refusal>
    requires left { Well names.pool.now names.table.now a.now }
    requires right { Well names.pool.now names.table.now b.now }
    ensures { toldBy given result ≡
        answer (divide (numbersOf (table_of names.entry.pool.now names.entry.table.now)) bounded (productOf a.now) (productOf b.now)) }
{
    multiplied(a, &inverted(b), names)
}

// Is the product well formed?
pub fn fits(p: &Product, names: NameTable) -> bool
    ensures { result ≡ isGot (productGiven names.entry.pool.now names.entry.table.now (given p.now)) }
{
    let n = p.len;
    if FACTORS < n {
        return false;
    }
    if n == 0 {
        return true;
    }
    let mut last = p.factors[0];
    if !is_sound(last, names) {
        return false;
    }
    for i in 1..n {
        let next = p.factors[i];
        if !is_sound(next, names) {
            return false;
        }
        match order(last, next, names) {
            Ordering::Less => {}
            Ordering::Equal | Ordering::Greater => return false,
        }
        last = next;
    }
    true
}
