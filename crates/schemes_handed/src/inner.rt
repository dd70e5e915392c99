//! The tests that make values of lists, and the work with these values.
pub mod bounds;
pub mod given;
pub mod tables;
