//! What the command `check_edition` says of sheets, as far as it can be said of values: files as they are had, the pages of an edition as they are passed on
//! to a writer, sheets judged by a certificate, and what the counts of a report are worth. The crates of the three forms of a report call these with what a
//! command line names; `edition_status` has what they share.
#![tactic(auto)]

pub mod alone;
pub mod by_certificate;
pub mod files;
pub mod keeping;
pub mod tables;
pub mod theorems;
pub mod together;

pub use edition_status::{front, status, written};
