//! Where no rule applies any more: what solving answers, from the state that is left.
#![tactic(auto)]

pub mod inner;

/// How many records of bindings and of bounds were written; or how many records of constraints remain.
#[derive(Clone, Copy)]
pub enum Finish {
    Solved(usize, usize),
    Unsolved(usize),
}
