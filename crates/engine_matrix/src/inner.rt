//! Rows of powers and the grid of them, and the machine that eliminates them.
pub mod grids;
pub mod parts;
pub mod rows;
