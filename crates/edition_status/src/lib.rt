//! How a run of `check_edition` reads a sheet, passes bytes on to a writer, counts, and ends: room to read in, a sink, the counts and the exit status.
#![tactic(auto)]

pub mod front;
pub mod status;
#[cfg(test)]
mod tests;
pub mod written;
