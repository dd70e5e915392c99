//! What is told of each sheet of an edition, for whoever shows it: the files that a command line names, what became of their sheets, and their new names.
#![tactic(auto)]

pub mod files;
pub mod listing;
pub mod printing;
mod telling;
pub mod told;
