//! Names of a line of text, and the types that are a name or a keyword, read and entered in one pass.
#![tactic(auto)]

pub mod inner;
