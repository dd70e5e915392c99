// Making what instantiating a scheme gives.
#![tactic(auto)]

pub mod inner;
