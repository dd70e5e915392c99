// Products: at most 64 factors that rise strictly, passed and returned by value.
#![tactic(auto)]

pub mod inner;
pub mod theorems;

ghost use Rattle.std.specs.Prelude.{◌≡◌, IfOk};
ghost use Rattle.rules.specs.Products.{scalar};
ghost use Rattle.rules.specs.Values.{productValue, multiplyCall, divideCall, inverseCall, raiseCall};
ghost use Rattle.exponents.specs.Answers.{expOf};
ghost use Rattle.rules.specs.Refusals.{toldBy};
ghost use Rattle.names.specs.Told.{unit_of};
ghost use Rattle.products.specs.Told.{given, answer};
ghost use Rattle.products.specs.Entry.{entry_of};

use exponents::Exponent;
use names::tables::NameTable;
use rules::Refusal;

/// A variable (11), a parameter (12), a base dimension (13) or a quantified variable (15); its name's number or its index; its power.
#[derive(Clone, Copy)]
pub struct Factor {
    pub kind: u32,
    pub name: u32,
    pub exp: Exponent,
}

/// The factors at the front of 64 places, and how many they are; what stands behind them means nothing.
#[derive(Clone, Copy)]
pub struct Product {
    pub factors: [Factor; 64],
    pub len: usize,
}

impl Product {
    /// The product of no factors.
    pub fn scalar() -> Product
        ensures { given result ≡ productValue scalar }
    {
        let blank = Factor {
            kind: 0,
            name: 0,
            exp: Exponent::ZERO,
        };
        let factors = [blank; 64];
        Product { factors, len: 0 }
    }

    // What each operation asks first: pool and table, and then the product.
    #[tactic(auto, using(crate::proofs::Calls::entering))]
    fn enter<'a>(&self, pool: &'a [u8], table: &'a [u32]) -> Result<NameTable<'a>, Refusal>
        ensures answer { toldBy unit_of result ≡ entry_of pool.now table.now (given self.now) }
        ensures same { IfOk result (λ t. (t.pool.now ≡ pool.now) × (t.table.now ≡ table.now)) }
    {
        let names = NameTable::new(pool, table)?;
        if inner::fits(self, names) {
            Ok(names)
        } else {
            Err(Refusal::Malformed)
        }
    }

    /// Merges the factors and adds exponents: 10 and 1 for a pool, a table or a product that is not well formed, 7 for a sum out of range, 8 for over 64
    /// factors left.
    #[tactic(auto, using(crate::proofs::Calls::calls), unfolding(crate::specs::Told::answer))]
    pub fn multiply(self, other: Product, pool: &[u8], table: &[u32]) -> Result<Product, Refusal>
        ensures { toldBy given result ≡ answer (multiplyCall pool.now table.now (given self) (given other)) }
    {
        let names = self.enter(pool, table)?;
        if !inner::fits(&other, names) {
            return Err(Refusal::Malformed);
        }
        inner::multiplied(&self, &other, names)
    }

    /// Multiplies by the inverse, and refuses as `multiply` does.
    #[tactic(auto, using(crate::proofs::Calls::calls), unfolding(crate::specs::Told::answer))]
    pub fn divide(self, other: Product, pool: &[u8], table: &[u32]) -> Result<Product, Refusal>
        ensures { toldBy given result ≡ answer (divideCall pool.now table.now (given self) (given other)) }
    {
        let names = self.enter(pool, table)?;
        if !inner::fits(&other, names) {
            return Err(Refusal::Malformed);
        }
        inner::divided(&self, &other, names)
    }

    /// Turns each exponent's sign: 10 and 1 for what is not well formed.
    #[tactic(auto, using(crate::proofs::Calls::calls), unfolding(crate::specs::Told::answer))]
    pub fn invert(self, pool: &[u8], table: &[u32]) -> Result<Product, Refusal>
        ensures { toldBy given result ≡ answer (inverseCall pool.now table.now (given self)) }
    {
        let _ = self.enter(pool, table)?;
        Ok(inner::inverted(&self))
    }

    /// Multiplies each exponent, and drops what is 0 then: 10 and 1 for what is not well formed, 7 for a product out of range.
    #[tactic(auto, using(crate::proofs::Calls::calls), unfolding(crate::specs::Told::answer))]
    pub fn power(self, e: Exponent, pool: &[u8], table: &[u32]) -> Result<Product, Refusal>
        ensures { toldBy given result ≡ answer (raiseCall pool.now table.now (given self) (expOf e)) }
    {
        let _ = self.enter(pool, table)?;
        if !e.well_formed() {
            return Err(Refusal::Malformed);
        }
        inner::raised(&self, e)
    }
}
