//! What a call on schemes is given, as values; the tables by which handed names are quantified, or put back.
#![tactic(auto)]

pub mod inner;

ghost use Rattle.std.specs.Prelude.{◌≤◌, ◌<◌, length, get_or};
ghost use Rattle.laws.specs.Lists.{All};
ghost use Rattle.schemes_handed.specs.Bounds.{BoundList, one-bounds};

use names::tables::NameTable;
use types::Type;

/// Names that were handed in, by their numbers: at most 2,048, each of them held by the name table.
#[derive(Clone, Copy)]
pub struct Handed<'a> {
    pub names: NameTable<'a>,
    pub numbers: &'a [u32],
    pub ghost few: { length numbers.now ≤ 2048 },
    pub ghost held: { All (λ x. x < get_or names.table.now 0 0) numbers.now },
}

/// The bounds of a scheme: the records from a place of a list up to its end.
#[derive(Clone, Copy)]
pub struct Bounds<'a> {
    pub words: &'a [u32],
    pub at: usize,
    pub ghost listed: { BoundList words.now at } by { one-bounds words.now at },
}

/// A scheme: a type by itself, or how many variables are quantified in a type, and its bounds.
#[derive(Clone, Copy)]
pub enum Scheme<'a> {
    Concrete(Type<'a>),
    Quantified(u32, Type<'a>, Bounds<'a>),
}
