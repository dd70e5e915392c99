// A pool and a table that were tested, lent together.
ghost use Rattle.std.specs.Prelude.{◌≡◌, ltb, get_or, [], IfOk};
ghost use Rattle.laws.specs.NameTable.{Good};
ghost use Rattle.rules.specs.Names.{table_of, names_of, numbersOf, tableGiven};
ghost use Rattle.rules.specs.Refusals.{toldBy};
ghost use Rattle.names.specs.Told.{toldOrder, unit_of};

use crate::{check_table, compare, inner};
use rules::Refusal;
use std::cmp::Ordering;

/// A name table that passed its check: a pool of 8,192 bytes or more and a table of 257 words or more, well formed. Whoever holds one needn't ask again.
#[derive(Clone, Copy)]
pub struct NameTable<'a> {
    pub pool: &'a [u8],
    pub table: &'a [u32],
    ghost good: { Good pool.now table.now },
}

impl<'a> NameTable<'a> {
    /// Refused: 10 where the pool or the table is short, 1 where the table is not well formed.
    pub fn new(pool: &'a [u8], table: &'a [u32]) -> Result<NameTable<'a>, Refusal>
        ensures answer { toldBy unit_of result ≡ tableGiven pool.now table.now }
        ensures same { IfOk result (λ t. (t.pool.now ≡ pool.now) × (t.table.now ≡ table.now)) }
    {
        check_table(pool, table)?;
        Ok(NameTable { pool, table })
    }

    /// Whether a name has this number.
    pub fn is_held(self, i: u32) -> bool
        ensures { result ≡ ltb i (get_or self.entry.table.now 0 0) }
    {
        inner::is_held(self.table, i)
    }

    /// The name with this number, a part of the pool; the empty part where the number is not held.
    pub fn name(self, i: u32) -> &'a [u8]
        ensures { result.now ≡ get_or (names_of (table_of self.entry.pool.now self.entry.table.now)) i [] }
    {
        if self.is_held(i) {
            inner::name_at(self.pool, self.table, i as usize)
        } else {
            &self.pool[0..0]
        }
    }

    /// The order of two numbers: that of their names, by bytes. A number that is not held counts as the empty name.
    pub fn order(self, i: u32, j: u32) -> Ordering
        ensures { toldOrder result ≡ (numbersOf (table_of self.entry.pool.now self.entry.table.now)).order i j }
    {
        compare(self.name(i), self.name(j))
    }
}
