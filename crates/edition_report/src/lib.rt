//! Reports: what is told of the sheets of an edition, byte by byte, put into any sink. A page begins with its sheet's name as it was given, control bytes shown
//! as "?", and, where there is a place, ":LINE:COLUMN" or ":LINE"; then come ": " and "accepted" or "not accepted". Its other lines begin with two blanks.
#![tactic(auto)]

pub mod inner;
pub mod lines;
pub mod pages;
pub mod rows;
pub mod shown;
pub mod theorems;
pub mod words;
