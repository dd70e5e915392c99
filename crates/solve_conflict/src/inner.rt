//! Lines of a set are left out, as long as the others are still refused with 5.
ghost use Rattle.std.specs.Prelude.{◌≡◌, ◌≤◌, map, length};
ghost use Rattle.rules.specs.Base.{collect};
ghost use Rattle.rules.specs.Choices.{isSide, wide};
ghost use Rattle.rules.specs.Conflicts.{wideOf, conflicting, conflictIn, conflictOf};
ghost use Rattle.rules.specs.Refusals.{told};
ghost use Rattle.rules.specs.Trees.{opened};
ghost use Rattle.rules.specs.Writing.{writeCon};
ghost use Rattle.records.specs.Good.{numbers};
ghost use Rattle.records.specs.Holds.{openOf};
ghost use Rattle.queries.specs.Marks.{Filled};
ghost use Rattle.types.specs.Given.{call_over};
ghost use Rattle.types.specs.Written.{Writes};
ghost use Rattle.solve_conflict.specs.Standing.{standing, Switched, On, LeftOut, line_place};
ghost use Rattle.solve_conflict.specs.Told.{FoundAs};

use names::tables::NameTable;
use records::Open;
use records::inner::put;
use rules::{RECORD_WORDS, RECORDS, Refusal};
use solve::inner::run;
use solve_finish::Finish;
use types::writer::Writer;
use types::{Constraint, Constraints, Demand, GivenSet, Head, Type};

/// How often a run of 2,048 lines can be halved.
const HALVINGS: u32 = 11;

/// Is an open name a variable?
#[tactic(auto, unfolding(rules::specs::Choices::isSide))]
fn is_variable(o: Open) -> bool
    ensures { result ≡ isSide (opened (openOf o)) }
{
    match o {
        Open::Var(_) => true,
        Open::Quant(_) | Open::Par(_) => false,
    }
}

/// Is a type a dimension or a variable?
#[tactic(auto, unfolding(rules::specs::Choices::isSide))]
fn is_side(t: Type) -> bool
    ensures { result ≡ isSide t.entry.tree.0 }
{
    match t.head() {
        Head::Open(o) => is_variable(o),
        Head::Basic(_) => false,
        Head::Dimension(_) => true,
        Head::Function(_) => false,
        Head::Struct(_, _) => false,
        Head::List(_) => false,
    }
}

/// Is a constraint looked at?
#[tactic(auto, unfolding(rules::specs::Choices::wide))]
fn is_wide(c: Constraint) -> bool
    ensures { result ≡ wide c.entry.tree.0 }
{
    match c.demand() {
        Demand::Equal(left, right) => is_side(left) && is_side(right),
        Demand::IsDimension(of) => is_side(of),
        Demand::IsScalar(_) => true,
        Demand::HasField(_, _, _) => false,
    }
}

/// How many constraints there are.
fn count(set: Constraints) -> usize
    requires few { length set.trees.0 ≤ 2048 }
    ensures { result ≡ length set.entry.trees.0 }
{
    let mut many = 0;
    'count: for _c in set {
        many += 1;
    }
    many
}

/// Writes those that are looked at of the constraints that stand.
fn put_standing(set: Constraints, stands: &[bool; RECORDS], out: &mut Writer)
    requires few { length set.trees.0 ≤ 2048 }
    requires long { length stands.now ≡ 2048 }
    ensures { Writes out.old out.new (collect writeCon (wideOf (standing stands.now 0 set.entry.trees.0))) }
{
    let mut place = 0;
    'standing: for c in set {
        let here = stands[place];
        place += 1;
        if here && is_wide(c) {
            out.copy_constraint(c);
        }
    }
}

/// Says of a run of places whether they stand.
fn switch(stands: &mut [bool; RECORDS], from: usize, to: usize, on: bool)
    requires order { from ≤ to }
    requires within { to ≤ 2048 }
    requires long { length stands.old ≡ 2048 }
    ensures { Switched from to on stands.old stands.new }
{
    'switch: for i in from..to {
        stands[i] = on;
    }
}

/// Writes the places of the constraints that stand, and says how many.
fn put_places(set: Constraints, stands: &[bool; RECORDS], res: &mut [u32]) -> usize
    requires few { length set.trees.0 ≤ 2048 }
    requires long { length stands.now ≡ 2048 }
    requires room { 8192 ≤ length res.old }
    ensures { Filled (map line_place (standing stands.now 0 set.entry.trees.0)) result res.old res.new }
{
    let mut place = 0;
    let mut many = 0;
    'places: for _c in set {
        let here = place;
        place += 1;
        if stands[here] {
            put(res, many, here as u32);
            many += 1;
        }
    }
    many
}

/// A set of constraints that passed the checks at entry.
#[derive(Clone, Copy)]
pub struct Lines<'a> {
    pub set: GivenSet<'a>,
}

impl<'a> Lines<'a> {
    /// Are those that stand refused with 5?
    fn is_refused(self, stands: &[bool; RECORDS], work: &mut [u32]) -> Result<bool, Refusal>
        requires long { length stands.now ≡ 2048 }
        requires room { 16384 ≤ length work.old }
        ensures { let names = self.entry.set.names in
            told result ≡ conflicting (numbers names.pool.now names.table.now) (standing stands.now 0 self.entry.set.all.trees.0) }
    {
        let set = self.set.all;
        let mut tested = [0u32; RECORD_WORDS];
        let mut out = Writer {
            words: &mut tested,
            at: 0,
        };
        put_standing(set, stands, &mut out);
        let n = out.at;
        let end = n * 4;
        let mut res = [0u32; RECORD_WORDS];
        match run(self.set.names, &out.words[..end], &mut res, work).outcome {
            Ok(Finish::Solved(_, _)) => Ok(false),
            Ok(Finish::Unsolved(_)) => Ok(true),
            Err(why) => Err(why),
        }
    }

    /// Leaves out, of the places from one up to another, what isn't needed for a refusal with 5: all of them, or what isn't needed of either half.
    fn leave_out(
        self,
        halvings: u32,
        from: usize,
        to: usize,
        stands: &mut [bool; RECORDS],
        work: &mut [u32],
    ) -> Result<(), Refusal>
        requires order { from ≤ to }
        requires within { to ≤ length self.set.all.trees.0 }
        requires long { length stands.old ≡ 2048 }
        requires whole { On from to stands.old }
        requires room { 16384 ≤ length work.old }
        ensures { let names = self.entry.set.names in
            LeftOut self.entry.set.all.trees.0 (numbers names.pool.now names.table.now) halvings from to stands.old stands.new result }
    {
        switch(stands, from, to, false);
        if self.is_refused(stands, work)? {
            return Ok(());
        }
        switch(stands, from, to, true);
        if halvings == 0 || to - from <= 1 {
            return Ok(());
        }
        let middle = from + (to - from) / 2;
        self.leave_out(halvings - 1, from, middle, stands, work)?;
        self.leave_out(halvings - 1, middle, to, stands, work)
    }

    /// Which lines conflict: their places are written, and counted.
    fn find(self, res: &mut [u32], work: &mut [u32]) -> Result<Option<usize>, Refusal>
        requires result_room { 8192 ≤ length res.old }
        requires room { 16384 ≤ length work.old }
        ensures { let names = self.entry.set.names in
            FoundAs (conflictIn (numbers names.pool.now names.table.now) self.entry.set.all.trees.0) res.old res.new result }
    {
        let mut stands = [true; RECORDS];
        if !self.is_refused(&stands, work)? {
            return Ok(None);
        }
        let n = count(self.set.all);
        self.leave_out(HALVINGS, 0, n, &mut stands, work)?;
        Ok(Some(put_places(self.set.all, &stands, res)))
    }
}

/// All that the call does past the check of 10, except for clearing the work buffer.
pub fn find_among<'x>(
    names: Result<NameTable<'x>, Refusal>,
    words: &'x [u32],
    res: &mut [u32],
    work: &mut [u32],
) -> Result<Option<usize>, Refusal>
    requires result_room { 8192 ≤ length res.old }
    requires room { 16384 ≤ length work.old }
    ensures { FoundAs (call_over names.entry conflictOf words.now) res.old res.new result }
{
    let set = GivenSet::apart(names, words)?;
    let lines = Lines { set };
    lines.find(res, work)
}
