//! Do two types mean the same, and is a constraint true once all bindings are put in? What the judge asks of records.
#![tactic(auto)]

pub mod inner;
