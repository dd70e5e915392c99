//! What a step does with the variables of its operands.
ghost use Rattle.std.specs.Prelude.{◌≡◌};
ghost use Rattle.rules.specs.Steps.{takes};
ghost use Rattle.lines_entry.specs.Told.{stepOf};
ghost use Rattle.lines_set.specs.Deeds.{takenBy};

use exponents::Exponent;
use lines_entry::inner::steps::{Given, Step, Two};

/// A type is given; a variable raised; two joined, the left one first; an arm chosen: the condition, and the two arms.
#[derive(Clone, Copy)]
pub enum Deed<'a> {
    Gives(Given<'a>),
    Raised(Exponent, u32),
    Joined(Two, u32, u32),
    Chosen(u32, u32, u32),
}

impl<'a> Deed<'a> {
    /// What the step does, with its operands at the front of the stack, the right one first; none where one is missing.
    pub fn new(step: Step<'a>, stack: &[u32]) -> Option<Deed<'a>>
        ensures { takenBy (stepOf step.entry) stack.now result ≡ takes (stepOf step.entry) stack.now }
    {
        match step {
            Step::Constant(given) => Some(Deed::Gives(given)),
            Step::Reference(given) => Some(Deed::Gives(given)),
            Step::Raise(exponent) => {
                let [x, ..] = stack else {
                    return None;
                };
                Some(Deed::Raised(exponent, *x))
            }
            Step::Join(two) => {
                let [right, left, ..] = stack else {
                    return None;
                };
                Some(Deed::Joined(two, *left, *right))
            }
            Step::Choose => {
                let [right, left, condition, ..] = stack else {
                    return None;
                };
                Some(Deed::Chosen(*condition, *left, *right))
            }
        }
    }
}
