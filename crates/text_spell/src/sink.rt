//! What takes bytes: the front of a lent buffer, a vector.
ghost use Rattle.std.specs.Prelude.{[], ◌≤◌, length, take, drop};
ghost use Rattle.text_spell.specs.Sinks.{Place, Puts};

use std::alloc::AllocError;

/// Takes bytes, one run after another, as long as it has room.
pub trait Sink {
    type Error;

    ghost place: { Self → Place };

    /// Puts bytes behind those that it holds. Where they don't all fit, it refuses.
    fn put(&mut self, bytes: &[u8]) -> Result<(), Self::Error>
        ensures { Puts (place self.old) bytes.now result (place self.new) };
}

/// The buffer has no room for the next bytes.
#[derive(Clone, Copy, Debug)]
pub struct Full;

/// The front of a lent buffer: its first `len` bytes are held, the others are room.
#[derive(Drop)]
pub struct Front<'a> {
    pub bytes: &'a mut [u8],
    pub len: usize,
    ghost fits: { len ≤ length bytes.now },
}

impl<'a> Sink for Front<'a> {
    type Error = Full;

    ghost place = { λ f. record { held = take f.len f.bytes.now; room = drop f.len f.bytes.now; loan = f.bytes.ghost_name } };

    fn put(&mut self, bytes: &[u8]) -> Result<(), Full> {
        if self.bytes.len() - self.len < bytes.len() {
            return Err(Full);
        }
        let end = self.len + bytes.len();
        self.bytes[self.len..end].copy_from_slice(bytes);
        self.len = end;
        Ok(())
    }
}

impl Sink for Vec<u8> {
    type Error = AllocError;

    ghost place = { λ v. record { held = v.items; room = []; loan = 0 } };

    fn put(&mut self, bytes: &[u8]) -> Result<(), AllocError> {
        if bytes.is_empty() {
            return Ok(());
        }
        self.extend_from_slice(bytes)
    }
}
