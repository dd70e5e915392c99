//! A sheet read as a whole: all of it, or nothing.
#![tactic(auto)]

pub mod inner;

use rules::Refusal;

/// A sheet that was read: how many records and constraints it has, and how many of its names are new.
#[derive(Clone, Copy)]
pub struct Read {
    pub records: usize,
    pub constraints: usize,
    pub names: usize,
}

/// Why nothing was changed, and the line and the column that are told, counted from 1; both are 0 where the text isn't to blame.
#[derive(Clone, Copy)]
pub struct NotRead {
    pub why: Refusal,
    pub line: usize,
    pub column: usize,
}
