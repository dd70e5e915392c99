// A sink that passes bytes on.
ghost use Rattle.std.specs.Prelude.{◌≡◌, []};
ghost use Rattle.text_spell.specs.Sinks.{Place};

use std::alloc::Global;
use std::io;
use std::io::Write;
use text_spell::sink::Sink;

/// Bytes that were passed on to a writer: what a contract says of them, it says of `passed`, since nothing can be said of a terminal or a file.
#[derive(Drop)]
pub struct Written<W: Write + Drop> {
    pub passed: Vec<u8>,
    to: W,
}

impl<W: Write + Drop> Written<W> {
    /// Nothing yet.
    pub fn new(alloc: Global, to: W) -> Written<W>
        ensures { result.passed.items ≡ [] }
    {
        Written {
            passed: Vec::new(alloc),
            to,
        }
    }
}

impl<W: Write + Drop> Sink for Written<W> {
    type Error = io::Error;

    ghost place = { λ s. record { held = s.passed.items; room = []; loan = 0 } };

    // Behind a line feed the writer is flushed, so that each page is out as soon as it is told.
    fn put(&mut self, bytes: &[u8]) -> Result<(), io::Error> {
        if bytes.is_empty() {
            return Ok(());
        }
        self.to.write_all(bytes)?;
        if bytes.last() == Some(&b'\n') {
            self.to.flush()?;
        }
        self.passed.extend_from_slice(bytes)?;
        Ok(())
    }
}
