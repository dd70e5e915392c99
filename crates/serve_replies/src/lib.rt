//! What `serve` answers, from bytes to bytes: which call a request is for, what it lends, and the answer. docs/SERVE.md has the form of both.
#![tactic(auto)]

mod coding;
mod lent;
pub mod reply;
pub mod request;
