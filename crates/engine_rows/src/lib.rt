//! Equal-scalar constraints laid out as rows of powers: between laying out and the answer no record is looked at.
#![tactic(auto)]

pub mod inner;

ghost use Rattle.std.specs.Prelude.{◌≤◌};

use engine_matrix::inner::parts::Grid;

/// The rows of a set, so many from the grid's front.
#[derive(Clone, Copy)]
pub struct Lines {
    pub grid: Grid,
    pub len: usize,
    pub ghost few: { len ≤ 24 },
}
