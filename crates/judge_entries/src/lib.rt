//! The judge's bindings: a lent slice of entries, looked up and tested for a repeat, and turned into a plain table by variable.
#![tactic(auto)]

pub mod inner;

/// A variable, and the place of its type in a record list.
#[derive(Clone, Copy)]
pub struct Entry {
    pub variable: u32,
    pub place: u32,
}
