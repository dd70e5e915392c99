//! Writing records, types and constraints.
ghost use Rattle.std.specs.Prelude.{◌≡◌, List, [], ◌∷◌, ◌+◌, ◌*◌, ◌≤◌, ◌<◌, length, min};
ghost use Rattle.std.proofs.Math.Seq.{slice};
ghost use Rattle.rules.specs.Base.{collect};
ghost use Rattle.rules.specs.Writing.{Rec, words, writeTy, writeCon, writeBinding};
ghost use Rattle.records.specs.Cut.{fit};
ghost use Rattle.records.specs.Views.{recOf};
ghost use Rattle.types.specs.Written.{last, Writes, Reserves, Begins};

use super::writer::{LAST, Writer};
use super::{Bindings, Constraint, Constraints, Type};
use records::View;
use records::inner::{copy, put_record};

/// The place past n records.
pub fn past(at: usize, n: usize) -> usize
    ensures { result ≡ min (at + n) last }
{
    at.saturating_add(n).min(LAST)
}

impl<'a> Writer<'a> {
    /// The record that says `v` and begins a part of `n` records.
    pub fn put(&mut self, v: View, n: usize)
        ensures { Writes self.old self.new (recOf v (fit n) ∷ []) }
    {
        let at = self.at;
        self.at = past(at, 1);
        if at < LAST {
            put_record(self.words, at, v, n);
        }
    }

    /// The records of a list from a place up to another.
    fn copy_records(&mut self, source: &[u32], from: usize, to: usize)
        requires order { from ≤ to }
        requires within { to * 4 ≤ length source.now }
        requires near { length source.now ≤ 4_000_000_000 }
        ensures { (rs : List Rec) → to ≡ from + length rs → slice (from * 4) (to * 4) source.now ≡ words rs → Writes self.old self.new rs }
    {
        let at = self.at;
        self.at = past(at, to - from);
        if self.at < LAST {
            copy(source, from, to, self.words, at);
        }
    }

    /// The records of a type.
    pub fn copy(&mut self, t: Type)
        ensures { Writes self.old self.new (writeTy t.entry.tree.0) }
    {
        self.copy_records(t.words, t.at, t.end());
    }

    /// The records of a constraint.
    pub fn copy_constraint(&mut self, c: Constraint)
        ensures { Writes self.old self.new (writeCon c.entry.tree.0) }
    {
        self.copy_records(c.words, c.at, c.end());
    }

    /// The records of constraints, all at once.
    pub fn copy_constraints(&mut self, cs: Constraints)
        ensures { Writes self.old self.new (collect writeCon cs.entry.trees.0) }
    {
        if cs.at < cs.end {
            self.copy_records(cs.words, cs.at, cs.end);
        }
    }

    /// The records of bindings, all at once.
    pub fn copy_bindings(&mut self, bs: Bindings)
        ensures { Writes self.old self.new (collect writeBinding bs.entry.trees.0) }
    {
        if bs.at < bs.end {
            self.copy_records(bs.words, bs.at, bs.end);
        }
    }

    /// Leaves room for a record: where it is to stand.
    pub fn reserve(&mut self) -> usize
        ensures { Reserves self.old self.new result }
    {
        let start = self.at;
        self.at = past(start, 1);
        start
    }

    /// The record `v` in the room that was left at `start`, which begins all that was written from there on.
    pub fn begin(&mut self, start: usize, v: View)
        ensures { Begins self.old self.new start v }
    {
        let n = self.at.saturating_sub(start);
        if start < LAST {
            put_record(self.words, start, v, n);
        }
    }
}
