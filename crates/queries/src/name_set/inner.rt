//! The names of a set in the order of their bytes: what asks that each of them is held.
ghost use Rattle.std.specs.Prelude.{◌≤◌, length, get_or};
ghost use Rattle.rules.specs.Contents.{sort};
ghost use Rattle.records.specs.Good.{numbers};
ghost use Rattle.queries.specs.Marks.{Held, Least, Filled, picked};

use super::NameSet;
use crate::inner::sooner;
use names::tables::NameTable;
use records::inner::put;
use rules::NAMES;

impl NameSet {
    /// The first of them by name bytes.
    fn first(&self, names: NameTable) -> Option<u32>
        requires { Held (get_or names.table.now 0 0) self.now.marks }
        ensures { Least (numbers names.entry.pool.now names.entry.table.now) self.now.marks 256 result }
    {
        let mut best = None;
        for i in 0..NAMES {
            if self.marks[i] {
                best = sooner(names, best, i as u32);
            }
        }
        best
    }

    /// Writes them, sorted by name bytes, and says how many they are.
    pub fn write_sorted(self, names: NameTable, out: &mut [u32]) -> usize
        requires held { Held (get_or names.table.now 0 0) self.marks }
        requires room { 256 ≤ length out.old }
        ensures { Filled (sort (numbers names.entry.pool.now names.entry.table.now) (picked 0 self.marks)) result out.old out.new }
    {
        let mut left = self;
        let mut k = 0;
        while let Some(x) = left.first(names) {
            left.marks[x as usize] = false;
            put(out, k, x);
            k += 1;
        }
        k
    }
}
