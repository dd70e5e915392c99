//! Types and constraints as they stand in records: a place in a list of words, together with the tree that the records from there on hold. Reading a type
//! takes no test and no `requires`: the place itself says that a whole type stands there.
#![tactic(auto)]

pub mod given;
pub mod inner;
pub mod parts;
pub mod reading;
pub mod same;
pub mod sets;
pub mod writer;
pub mod writing;

ghost use Rattle.std.specs.Prelude.{◌≡◌, ◌≤◌, true, length};
ghost use Rattle.records.specs.Good.{goodTy};
ghost use Rattle.types.specs.Once.{ATree, ACon, Trees, FieldTrees, Factors, one-tree, one-con, one-list, one-field-list, one-product};
ghost use Rattle.types.specs.Sets.{Cons, one-set};
ghost use Rattle.types.specs.Binds.{Binds, one-binds};
ghost use Rattle.types.specs.Fine.{Fine, FineBindings};

use names::tables::NameTable;
use records::{Atom, Basic, Open};

/// A type: the place of its first record, counted in records of four words.
#[derive(Clone, Copy)]
pub struct Type<'a> {
    pub words: &'a [u32],
    pub at: usize,
    pub ghost near: { length words.now ≤ 4_000_000_000 },
    pub ghost tree: { ATree words.now at } by { one-tree words.now at },
}

/// Some types, one after another.
#[derive(Clone, Copy)]
pub struct Types<'a> {
    pub words: &'a [u32],
    pub at: usize,
    pub count: u32,
    pub ghost near: { length words.now ≤ 4_000_000_000 },
    pub ghost trees: { Trees words.now at count } by { one-list words.now at count },
}

/// The fields of a struct, one after another.
#[derive(Clone, Copy)]
pub struct Fields<'a> {
    pub words: &'a [u32],
    pub at: usize,
    pub count: u32,
    pub ghost near: { length words.now ≤ 4_000_000_000 },
    pub ghost trees: { FieldTrees words.now at count } by { one-field-list words.now at count },
}

/// The factors of a dimension, one record each.
#[derive(Clone, Copy)]
pub struct Product<'a> {
    pub words: &'a [u32],
    pub at: usize,
    pub count: u32,
    pub ghost near: { length words.now ≤ 4_000_000_000 },
    pub ghost within: { at ≤ 1_000_000_000 },
    pub ghost factors: { Factors words.now at count } by { one-product words.now at count },
}

/// A factor: a name, and its power as the two words of its record (the numerator in two's complement).
#[derive(Clone, Copy)]
pub struct Factor {
    pub atom: Atom,
    pub num: u32,
    pub den: u32,
}

/// What a type is, with its parts. A function: its parameters and what it returns. A struct: its name, its type arguments and its fields.
#[derive(Clone, Copy)]
pub enum Shape<'a> {
    Open(Open),
    Basic(Basic),
    Dimension(Product<'a>),
    Function(Types<'a>, Type<'a>),
    Struct(u32, Types<'a>, Fields<'a>),
    List(Type<'a>),
}

/// What a type is, found without a step over its parts. A function: its parameters and, last, what it returns, as one row of types. A struct: its name and its
/// type arguments.
#[derive(Clone, Copy)]
pub enum Head<'a> {
    Open(Open),
    Basic(Basic),
    Dimension(Product<'a>),
    Function(Types<'a>),
    Struct(u32, Types<'a>),
    List(Type<'a>),
}

/// A constraint: the place of its first record.
#[derive(Clone, Copy)]
pub struct Constraint<'a> {
    pub words: &'a [u32],
    pub at: usize,
    pub ghost near: { length words.now ≤ 4_000_000_000 },
    pub ghost tree: { ACon words.now at } by { one-con words.now at },
}

/// Constraints, one after another up to a place.
#[derive(Clone, Copy)]
pub struct Constraints<'a> {
    pub words: &'a [u32],
    pub at: usize,
    pub end: usize,
    pub ghost near: { length words.now ≤ 4_000_000_000 },
    pub ghost trees: { Cons words.now at end } by { one-set words.now at end },
}

/// A set of constraints that passed its test over a name table: well formed, and of at most 2,048 records.
#[derive(Clone, Copy)]
pub struct GivenSet<'a> {
    pub names: NameTable<'a>,
    pub all: Constraints<'a>,
    pub ghost fine: { Fine names.pool.now names.table.now all.trees.0 },
}

/// A type that passed its test over a name table: well formed, with no quantified variable.
#[derive(Clone, Copy)]
pub struct GivenType<'a> {
    pub names: NameTable<'a>,
    pub whole: Type<'a>,
    pub ghost good: { goodTy names.pool.now names.table.now 0 whole.tree.0 ≡ true },
}

/// A binding: a variable, and the type that it is bound to.
#[derive(Clone, Copy)]
pub struct Binding<'a> {
    pub name: u32,
    pub to: Type<'a>,
}

/// Bindings, one after another up to a place.
#[derive(Clone, Copy)]
pub struct Bindings<'a> {
    pub words: &'a [u32],
    pub at: usize,
    pub end: usize,
    pub ghost near: { length words.now ≤ 4_000_000_000 },
    pub ghost trees: { Binds words.now at end } by { one-binds words.now at end },
}

/// Bindings that passed their test over a name table: well formed, and of at most 2,048 records.
#[derive(Clone, Copy)]
pub struct GivenBindings<'a> {
    pub names: NameTable<'a>,
    pub all: Bindings<'a>,
    pub ghost fine: { FineBindings names.pool.now names.table.now all.trees.0 },
}

/// What a constraint asks: that two types are equal, that a type is a dimension, that a dimension is a scalar, or that a type has the field of that name, and
/// what the field's type is to be.
#[derive(Clone, Copy)]
pub enum Demand<'a> {
    Equal(Type<'a>, Type<'a>),
    IsDimension(Type<'a>),
    IsScalar(Product<'a>),
    HasField(u32, Type<'a>, Type<'a>),
}
