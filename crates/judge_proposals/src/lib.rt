// What is proposed to the judge beside a set: bounds, and types by variable in a table of places.
#![tactic(auto)]

pub mod inner;
