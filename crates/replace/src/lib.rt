// Replacing: bound variables of types, constraints and bindings replaced by the types that they are bound to.
#![tactic(auto)]

pub mod inner;
pub mod substitution;
