//! A plain second engine for sets of equal-scalar constraints: rows of powers, eliminated one by one.
#![tactic(auto)]

pub mod inner;
