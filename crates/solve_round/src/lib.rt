//! A round of the solver: the next state is written beside the one that it is made from.
#![tactic(auto)]

pub mod inner;

use types::{Bindings, Constraints};

/// Where a state ends, counted in records: its constraints, and the bindings behind them.
#[derive(Clone, Copy)]
pub struct Ends {
    pub constraints: usize,
    pub bindings: usize,
}

/// Where a state stands in a buffer: its constraints begin at the record `start`, and to those before the record `stuck` no rule applies.
#[derive(Clone, Copy)]
pub struct Place {
    pub start: usize,
    pub stuck: usize,
    pub ends: Ends,
}

/// Where the state after a round stands: in the buffer that was read, or in the one that was written; or there is none, since no rule applies.
#[derive(Clone, Copy)]
pub enum After {
    Read(Place),
    Written(Place),
    Nowhere,
}

/// A state except for the constraint that is taken: the constraints before it and behind it, and the bindings. Or a whole state, in which no rule applies to
/// those before.
#[derive(Clone, Copy)]
pub struct Others<'a> {
    pub before: Constraints<'a>,
    pub behind: Constraints<'a>,
    pub bindings: Bindings<'a>,
}
