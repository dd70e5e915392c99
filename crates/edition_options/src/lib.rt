//! What a command line of `check_edition` asks for, as values; and a file that is made anew.
#![tactic(auto)]

pub mod options;
pub mod output;
pub mod writing;
