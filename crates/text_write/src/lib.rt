//! The text of a sheet, put into any sink: names, types and constraints as the lines of the grammar that the reader reads back.
//! A name that isn't held is put as the empty one.
#![tactic(auto)]

pub mod factors;
pub mod inner;
pub mod lines;
pub mod terms;
