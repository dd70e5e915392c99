//! Rows, grids, columns and the machine. Each carries the facts that its users need, so that nobody has to ask for them.
ghost use Rattle.std.specs.Prelude.{◌≡◌, ◌+◌, ◌≤◌, length};
ghost use Rattle.engine_matrix.specs.Powers.{powersIn, AllGood};

use exponents::Exponent;

/// A power for each of 48 columns: 24 variables, and 24 parameters and base dimensions. Columns that no name has hold 0.
#[derive(Clone, Copy)]
pub struct Row {
    pub powers: [Exponent; 48],
    pub ghost long: { length (powersIn powers) ≡ 48 },
    pub ghost good: { AllGood powers },
}

/// At most 24 rows, by value.
#[derive(Clone, Copy)]
pub struct Grid {
    pub rows: [Row; 24],
    pub ghost long: { length rows ≡ 24 },
}

/// The names of the columns: so many variables, then parameters, then base dimensions.
#[derive(Clone, Copy)]
pub struct Columns {
    pub vars: [u32; 256],
    pub variables: usize,
    pub pars: [u32; 256],
    pub parameters: usize,
    pub bases: [u32; 256],
    pub dimensions: usize,
    pub len: usize,
    pub ghost vars_long: { length vars ≡ 256 },
    pub ghost pars_long: { length pars ≡ 256 },
    pub ghost bases_long: { length bases ≡ 256 },
    pub ghost few_variables: { variables ≤ 24 },
    pub ghost few_others: { parameters + dimensions ≤ 24 },
    pub ghost all: { len ≡ variables + parameters + dimensions },
}

/// The rows left to do, from `at` on; the rows that stay; the variables that are bound, and their values.
#[derive(Clone, Copy)]
pub struct Machine {
    pub rows: Grid,
    pub at: usize,
    pub left: usize,
    pub kept: Grid,
    pub stay: usize,
    pub names: [u32; 24],
    pub values: Grid,
    pub found: usize,
    pub ghost named: { length names ≡ 24 },
    pub ghost here: { at + left ≤ 24 },
    pub ghost room: { stay + left + found ≤ 24 },
}
