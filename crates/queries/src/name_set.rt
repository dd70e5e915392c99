//! Sets of names of a table, by their numbers.
pub mod inner;

ghost use Rattle.std.specs.Prelude.{◌≡◌, Decides, List, [], ◌∷◌, ◌++◌, ℕ, length};
ghost use Rattle.queries.specs.Marks.{Has, Within, disjoint, picked};
ghost use Rattle.queries.specs.Scans.{choose, opensIn};

use super::Kind;
use super::inner::name_at;
use rules::NAMES;

/// Some of the names that a table can hold: a mark for each number.
#[derive(Clone, Copy)]
pub struct NameSet {
    marks: [bool; NAMES],
}

impl NameSet {
    /// No name.
    pub fn new() -> NameSet
        ensures { Has result [] }
    {
        NameSet {
            marks: [false; NAMES],
        }
    }

    /// Puts a name in. A number that no name has changes nothing.
    pub fn insert(&mut self, x: u32)
        ensures { (xs : List ℕ) → Has self.old xs → Has self.new (xs ++ x ∷ []) }
    {
        let i = x as usize;
        if i < NAMES {
            self.marks[i] = true;
        }
    }

    /// Puts the names of that kind in which the records from b up to e give.
    pub fn extend(&mut self, s: &[u32], b: usize, e: usize, k: Kind)
        ensures { (xs : List ℕ) → Has self.old xs → Has self.new (xs ++ choose k (opensIn s.now b e)) }
    {
        for i in b..e {
            if let Some(x) = name_at(s, i, k) {
                self.insert(x);
            }
        }
    }

    /// Is no name in both?
    pub fn is_disjoint(&self, other: &NameSet) -> bool
        ensures { result ≡ disjoint self.now.marks other.now.marks }
    {
        for i in 0..NAMES {
            if self.marks[i] && other.marks[i] {
                return false;
            }
        }
        true
    }

    /// Is each of its names in the other too?
    pub fn is_subset(&self, other: &NameSet) -> bool
        ensures { Decides result (Within self.now.marks other.now.marks 256) }
    {
        for i in 0..NAMES {
            if self.marks[i] && !other.marks[i] {
                return false;
            }
        }
        true
    }

    /// How many they are.
    pub fn len(&self) -> u32
        ensures { result ≡ length (picked 0 self.now.marks) }
    {
        let mut n = 0;
        for i in 0..NAMES {
            if self.marks[i] {
                n += 1;
            }
        }
        n
    }
}
