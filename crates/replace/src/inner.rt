// The work on types, constraints and bindings that are known to be held.
pub mod bound;
pub mod constraints;
pub mod dims;
pub mod factors;
pub mod flat;
pub mod walk;
