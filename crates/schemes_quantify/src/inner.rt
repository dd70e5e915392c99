// Work whose callers know that the lists are well formed and the handed names held.
pub mod quantifying;
