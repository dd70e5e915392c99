//! The front of a lent buffer.

/// Writes records one after another from a place on, as far as the buffer goes. What doesn't fit is counted, and left out.
#[derive(Drop)]
pub struct Writer<'a> {
    pub words: &'a mut [u32],
    pub at: usize,
}

/// The count of records stops here, far beyond any buffer.
pub const LAST: usize = 1 << 60;
