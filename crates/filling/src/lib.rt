//! Fills a buffer from a reader.
#![tactic(auto)]

ghost use Rattle.std.specs.Prelude.{◌≡◌, ◌≤◌, ◌<◌, length, take, IsOk};
ghost use Rattle.std.specs.Io.KnownBytes.{Consumes, IsAtEnd};

use std::io;
use std::io::{ErrorKind, Read};

/// Reads until the buffer is full, the input ends or a read fails. Answers how many bytes stand at the buffer's front, and whether a read failed: what was
/// read before the failure is there, and nothing else was taken from the reader. A read that a signal interrupts is made again.
pub fn fill_front<R: Read>(reader: &mut R, buf: &mut [u8]) -> (usize, io::Result<()>)
    ensures within { result.0 ≤ length buf.new }
    ensures bytes { Consumes (R.remaining reader.old) (R.remaining reader.new) (take result.0 buf.new) }
    ensures end { IsOk result.1 → result.0 < length buf.old → IsAtEnd (R.remaining reader.new) }
{
    let mut at = 0;
    for _ in 0..u64::MAX {
        if buf.len() <= at {
            return (at, Ok(()));
        }
        match reader.read(&mut buf[at..]) {
            Ok(0) => return (at, Ok(())),
            Ok(n) => at += n,
            Err(e) => {
                if e.kind() != ErrorKind::Interrupted {
                    return (at, Err(e));
                }
            }
        }
    }
    (at, Err(io::Error::other("too many reads")))
}
