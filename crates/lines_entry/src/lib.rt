// Calculation lines. The checks at entry are here, the steps in `lines_set`, the call in `lines`.
#![tactic(auto)]

pub mod inner;
