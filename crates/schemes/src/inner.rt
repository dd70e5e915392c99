// The steps of the calls on schemes, past the check of 10.
pub mod checks;
pub mod generalising;
pub mod instantiated;
pub mod making;
