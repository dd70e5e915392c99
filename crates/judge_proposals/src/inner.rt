// The checks of a proposal whose table of names is good.
pub mod bounds;
pub mod mixed;
