// Work whose callers know that the scheme is well formed and the names are held.
pub mod instantiating;
