// The steps of a calculation line, once they are read.
ghost use Rattle.std.specs.Prelude.{◌≡◌, ◌≤◌, length};
ghost use Rattle.rules.specs.Trees.{size};

use exponents::Exponent;
use types::Type;

/// A line has at most this many steps.
pub const STEPS: usize = 128;

/// A type that a step points to. It has no more records than its list has.
#[derive(Clone, Copy)]
pub struct Given<'a> {
    pub of: Type<'a>,
    pub ghost few: { size of.tree.0 ≤ 2048 },
}

/// What is done with two operands.
#[derive(Clone, Copy)]
pub enum Two {
    Adds,
    Subtracts,
    Multiplies,
    Divides,
    Compares,
}

/// A step: a constant with its type, a reference to an earlier line with that line's type, a power, two operands joined, a choice.
#[derive(Clone, Copy)]
pub enum Step<'a> {
    Constant(Given<'a>),
    Reference(Given<'a>),
    Raise(Exponent),
    Join(Two),
    Choose,
}

/// The steps of a line, the first at the front.
#[derive(Clone, Copy)]
pub struct Steps<'a> {
    pub list: [Step<'a>; STEPS],
    pub len: usize,
    pub ghost few: { len ≤ 128 },
    pub ghost full: { length list ≡ 128 },
}
