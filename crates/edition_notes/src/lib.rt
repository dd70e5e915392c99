//! Notes on an edition: names that look alike or aren't seen, structs that are written with other fields, sheets without a constraint, comments that hide
//! lines, files that hold the same bytes; no verdict rests on them.
#![tactic(auto)]

mod bound;
mod files;
mod found;
pub mod notes;
mod places;
pub mod shown;
mod survey;
mod telling;
