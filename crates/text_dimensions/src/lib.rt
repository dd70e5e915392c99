//! Factors and dimensions of a line of text, multiplied while they are read.
#![tactic(auto)]

pub mod inner;
