//! The constraints that the steps of a calculation line issue, written one after another.
#![tactic(auto)]

pub mod deeds;
pub mod issuing;
pub mod writing;
