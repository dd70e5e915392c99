//! Where the parts of a list end that are well formed.
ghost use Rattle.std.specs.Prelude.{◌≡◌, ◌/◌, length, ◌&&◌};
ghost use Rattle.exponents.specs.Answers.{expOf};
ghost use Rattle.rules.specs.Exponents.{goodStored};
ghost use Rattle.rules.specs.Trees.{orderAtom, orderOpen};
ghost use Rattle.names.specs.Told.{toldOrder};
ghost use Rattle.records.specs.Holds.{openOf, atomOf};
ghost use Rattle.records.specs.Good.{Ends, closedAt, Chained, There, numbers, holding, follows, atomFollows, GoodScheme};
ghost use Rattle.records.specs.Readers.{openGood, atomGood, FactorsAt, DimAt, TypeAt, TypesAt, FieldsAt, ProductAt, TwoAt, PartAt};
ghost use Rattle.records.specs.Readers.{ConstraintAt, BindingAt, BoundAt};

use super::inner::is_less;
use super::seen::{length_at, view_at};
use super::{Atom, Open, View};
use exponents::Exponent;
use names::tables::NameTable;
use std::cmp::Ordering;

/// A list over a tested name table, and how many quantified variables it may speak of.
#[derive(Clone, Copy)]
pub struct Reader<'n, 'w> {
    pub names: NameTable<'n>,
    pub quantified: u32,
    pub words: &'w [u32],
}

/// What comes one after another in a list.
#[derive(Clone, Copy)]
pub enum Part {
    Constraint,
    Binding,
    Bound,
}

impl Reader<'_, '_> {
    /// Are all records from a place on such parts?
    pub fn all(self, part: Part, from: usize) -> bool
        ensures { Chained (PartAt self.entry part) (length self.entry.words.now / 4) from result }
    {
        let n = self.words.len() / 4;
        let mut at = from;
        while at < n {
            let Some(end) = self.part_end(part, at) else {
                return false;
            };
            at = end;
        }
        at == n
    }

    fn part_end(self, part: Part, at: usize) -> Option<usize>
        ensures { Ends (PartAt self.entry part at) result }
    {
        match part {
            Part::Constraint => self.constraint_end(at),
            Part::Binding => self.binding_end(at),
            Part::Bound => self.bound_end(at),
        }
    }

    /// Is there a type from a place on that takes all records?
    pub fn is_type(self, at: usize) -> bool
        ensures { There (λ t. TypeAt self.entry 64 at t (length self.entry.words.now / 4)) result }
    {
        self.type_end(at, 64) == Some(self.words.len() / 4)
    }

    /// Where the constraint at a place ends.
    pub fn constraint_end(self, at: usize) -> Option<usize>
        ensures { Ends (ConstraintAt self.entry at) result }
    {
        let end = match view_at(self.words, at) {
            View::Equal => self.two_end(at + 1)?,
            View::IsDim => self.type_end(at + 1, 64)?,
            View::IsScalar => self.product_end(at + 1)?,
            View::HasField(x) => {
                if !self.names.is_held(x) {
                    return None;
                }
                self.two_end(at + 1)?
            }
            _ => return None,
        };
        self.closed(at, end)
    }

    fn binding_end(self, at: usize) -> Option<usize>
        ensures { Ends (BindingAt self.entry at) result }
    {
        let View::Binding(x) = view_at(self.words, at) else {
            return None;
        };
        if !self.names.is_held(x) {
            return None;
        }
        let end = self.type_end(at + 1, 64)?;
        self.closed(at, end)
    }

    fn bound_end(self, at: usize) -> Option<usize>
        ensures { Ends (BoundAt self.entry at) result }
    {
        let View::Bound(o) = view_at(self.words, at) else {
            return None;
        };
        if !self.holds(o) {
            return None;
        }
        self.closed(at, at + 1)
    }

    // Where two types end, the first of which is at a place.
    fn two_end(self, at: usize) -> Option<usize>
        ensures { Ends (TwoAt self.entry at) result }
    {
        let second = self.type_end(at, 64)?;
        self.type_end(second, 64)
    }

    // Where the product at a place ends.
    fn product_end(self, at: usize) -> Option<usize>
        ensures { Ends (ProductAt self.entry at) result }
    {
        let View::Dim(n) = view_at(self.words, at) else {
            return None;
        };
        let end = self.dim_end(at + 1, n)?;
        self.closed(at, end)
    }

    /// Where the type at a place ends, which is nested at most `deep`.
    #[cycle(types)]
    pub fn type_end(self, at: usize, deep: usize) -> Option<usize>
        ensures { Ends (TypeAt self.entry deep at) result }
    {
        let deep = deep.checked_sub(1)?;
        let end = match view_at(self.words, at) {
            View::Opened(o) => {
                if !self.holds(o) {
                    return None;
                }
                at + 1
            }
            View::Basic(_) => at + 1,
            View::Dim(n) => self.dim_end(at + 1, n)?,
            View::Function(n) => {
                let result = self.types_end(at + 1, n, deep)?;
                self.type_end(result, deep)?
            }
            View::Struct(x, n, m) => {
                if !self.names.is_held(x) {
                    return None;
                }
                let fields = self.types_end(at + 1, n, deep)?;
                self.fields_end(fields, m, deep, None)?
            }
            View::List => self.type_end(at + 1, deep)?,
            _ => return None,
        };
        self.closed(at, end)
    }

    // Where n types end.
    #[cycle(types)]
    fn types_end(self, at: usize, n: u32, deep: usize) -> Option<usize>
        ensures { Ends (TypesAt self.entry deep at n) result }
    {
        if n == 0 {
            return Some(at);
        }
        let next = self.type_end(at, deep)?;
        self.types_end(next, n - 1, deep)
    }

    // Where n fields end that follow the field of the name `before`.
    #[cycle(types)]
    fn fields_end(self, at: usize, n: u32, deep: usize, before: Option<u32>) -> Option<usize>
        ensures { Ends (FieldsAt self.entry deep at n before) result }
    {
        if n == 0 {
            return Some(at);
        }
        let View::Field(x) = view_at(self.words, at) else {
            return None;
        };
        if !name_good(self.names, before, x) {
            return None;
        }
        let end = self.type_end(at + 1, deep)?;
        let next = self.closed(at, end)?;
        self.fields_end(next, n - 1, deep, Some(x))
    }

    // Where the n factors of a product end.
    fn dim_end(self, at: usize, n: u32) -> Option<usize>
        ensures { Ends (DimAt self.entry at n) result }
    {
        if n > 64 {
            return None;
        }
        self.factors_end(at, n, None)
    }

    // Where n factors end, each one record long, that follow the factor of the atom `left`.
    fn factors_end(self, at: usize, n: u32, left: Option<Atom>) -> Option<usize>
        ensures { Ends (FactorsAt self.entry at n left) result }
    {
        if n == 0 {
            return Some(at);
        }
        let View::Factor(a, num, den) = view_at(self.words, at) else {
            return None;
        };
        let e = Exponent::from_words(num, den);
        if length_at(self.words, at) != 1 || !self.factor_good(left, a, e) {
            return None;
        }
        self.factors_end(at + 1, n - 1, Some(a))
    }

    // The end of a part, if its first record says so.
    fn closed(self, at: usize, end: usize) -> Option<usize>
        ensures { result ≡ closedAt self.entry.words.now at end }
    {
        if at <= end && length_at(self.words, at) == end - at {
            Some(end)
        } else {
            None
        }
    }

    // Is a factor well formed, and does it come after the one before?
    fn factor_good(self, left: Option<Atom>, a: Atom, e: Exponent) -> bool
        ensures { result ≡ (atomGood self.entry (atomOf a) && goodStored (expOf e)
            && atomFollows self.entry.names.pool.now self.entry.names.table.now left (atomOf a)) }
    {
        if !self.holds_atom(a) {
            return false;
        }
        e.is_stored() && atom_follows(self.names, left, a)
    }

    // Is a name held, or an index below the count of quantified variables?
    #[tactic(auto, unfolding(rules::specs::WellFormed::goodOpen, rules::specs::Names::table_of))]
    fn holds(self, o: Open) -> bool
        ensures { result ≡ openGood self.entry (openOf o) }
    {
        match o {
            Open::Var(x) | Open::Par(x) => self.names.is_held(x),
            Open::Quant(i) => i < self.quantified,
        }
    }

    #[tactic(auto, unfolding(rules::specs::Names::table_of))]
    fn holds_atom(self, a: Atom) -> bool
        ensures { result ≡ atomGood self.entry (atomOf a) }
    {
        match a {
            Atom::Free(o) => self.holds(o),
            Atom::Base(x) => self.names.is_held(x),
        }
    }
}

/// Are all records a scheme, well formed? Its length is that of the list.
pub fn scheme_good(names: NameTable, s: &[u32]) -> bool
    ensures { There (GoodScheme names.entry.pool.now names.entry.table.now s.now) result }
{
    if length_at(s, 0) != s.len() / 4 {
        return false;
    }
    let reader = Reader {
        names,
        quantified: 0,
        words: s,
    };
    match view_at(s, 0) {
        View::Concrete => reader.is_type(1),
        View::Scheme(quantified) => {
            let reader = Reader {
                quantified,
                ..reader
            };
            match reader.type_end(1, 64) {
                Some(end) => reader.all(Part::Bound, end),
                None => false,
            }
        }
        _ => false,
    }
}

// The order of factors: variables, quantified variables, parameters.
#[tactic(auto, using(names::proofs::Told::ordered), unfolding(rules::specs::Trees::orderOpen))]
fn open_order(names: NameTable, a: Open, b: Open) -> Ordering
    ensures { toldOrder result ≡ orderOpen (numbers names.entry.pool.now names.entry.table.now) (openOf a) (openOf b) }
{
    match (a, b) {
        (Open::Var(x), Open::Var(y)) | (Open::Par(x), Open::Par(y)) => names.order(x, y),
        (Open::Quant(i), Open::Quant(j)) => i.cmp(&j),
        (Open::Var(_), Open::Quant(_) | Open::Par(_)) | (Open::Quant(_), Open::Par(_)) =>
            Ordering::Less,
        (Open::Quant(_) | Open::Par(_), Open::Var(_)) | (Open::Par(_), Open::Quant(_)) =>
            Ordering::Greater,
    }
}

// And base dimensions last.
#[tactic(auto, unfolding(rules::specs::Trees::orderAtom))]
fn atom_order(names: NameTable, a: Atom, b: Atom) -> Ordering
    ensures { toldOrder result ≡ orderAtom (numbers names.entry.pool.now names.entry.table.now) (atomOf a) (atomOf b) }
{
    match (a, b) {
        (Atom::Free(o), Atom::Free(p)) => open_order(names, o, p),
        (Atom::Base(x), Atom::Base(y)) => names.order(x, y),
        (Atom::Free(_), Atom::Base(_)) => Ordering::Less,
        (Atom::Base(_), Atom::Free(_)) => Ordering::Greater,
    }
}

// Does a factor's atom come after the one before?
fn atom_follows(names: NameTable, left: Option<Atom>, a: Atom) -> bool
    ensures { result ≡ atomFollows names.entry.pool.now names.entry.table.now left (atomOf a) }
{
    match left {
        None => true,
        Some(b) => is_less(atom_order(names, b, a)),
    }
}

// Does a field's name come after the one before?
fn name_follows(names: NameTable, before: Option<u32>, x: u32) -> bool
    ensures { result ≡ follows names.entry.pool.now names.entry.table.now before x }
{
    match before {
        None => true,
        Some(y) => is_less(names.order(y, x)),
    }
}

// Is a field's name held, and does it come after the one before?
fn name_good(names: NameTable, before: Option<u32>, x: u32) -> bool
    ensures { result ≡ (holding names.entry.pool.now names.entry.table.now x && follows names.entry.pool.now names.entry.table.now before x) }
{
    names.is_held(x) && name_follows(names, before, x)
}
