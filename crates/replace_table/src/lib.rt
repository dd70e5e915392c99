// The table of places of a list of bindings: what `replace` looks names up in.
#![tactic(auto)]

pub mod inner;
