// A type and bounds with handed names quantified.
#![tactic(auto)]

pub mod inner;
