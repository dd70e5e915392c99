//! An edition's report as lines on standard output: over one name table, each sheet over its own, or by a certificate; and the certificate that is kept of it.
#![tactic(auto)]

pub mod apart;
mod beside;
mod certificate;
mod how;
mod output;
pub mod together;
pub mod verify;
