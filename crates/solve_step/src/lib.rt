//! What the first rule that fits does with a constraint.
#![tactic(auto)]

pub mod inner;

/// A variable bound, other constraints in the place of this one, it alone taken away, or no rule. The number is the place past the records that were written.
#[derive(Clone, Copy)]
pub enum Step {
    Bind(usize),
    Split(usize),
    Done,
    Stuck,
}
