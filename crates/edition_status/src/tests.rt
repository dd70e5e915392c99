// Reads and writes that fail on the way.
use crate::front::Front;
use crate::written::Written;
use rules::Unseen;
use std::io;
use std::io::{Read, Write};
use std::test::Fail;
use text_spell::sink::Sink;

/// Hands out so many bytes, and then fails.
#[derive(Drop)]
struct Failing {
    left: usize,
}

impl Read for Failing {
    fn read(&mut self, buf: &mut [u8]) -> io::Result<usize> {
        let n = self.left.min(buf.len());
        if n == 0 {
            return Err(io::Error::other("the disk fails"));
        }
        buf[..n].fill(b'-');
        self.left -= n;
        Ok(n)
    }
}

/// Takes so many bytes, and then fails.
#[derive(Drop)]
struct Full {
    left: usize,
}

impl Write for Full {
    fn write(&mut self, buf: &[u8]) -> io::Result<usize> {
        let n = self.left.min(buf.len());
        if n == 0 {
            return Err(io::Error::other("no space is left"));
        }
        self.left -= n;
        Ok(n)
    }

    fn flush(&mut self) -> io::Result<()> {
        Ok(())
    }
}

#[test]
fn a_read_that_fails_leaves_no_sheet(rt: HostRuntime) -> Result<(), Fail> {
    let alloc = rt.alloc();
    let mut front = Front::new(alloc)?;
    for left in [0, 1, 100_000] {
        let text = front.read_sheet(alloc, &mut Failing { left })?;
        assert!(rt; matches!(text, Err(Unseen::NotRead)), "after {left} bytes");
    }
    Ok(())
}

#[test]
fn bytes_that_are_torn_are_not_passed_on(rt: HostRuntime) -> Result<(), Fail> {
    let page: &[u8] = b"a.sheet: accepted\n";
    let mut whole = Written::new(rt.alloc(), Full { left: 1_000 });
    assert!(rt; whole.put(page).is_ok());
    assert!(rt; whole.passed.as_slice() == page);
    for left in 0..page.len() {
        let mut torn = Written::new(rt.alloc(), Full { left });
        assert!(rt; torn.put(page).is_err(), "after {left} bytes");
        assert!(rt; torn.passed.is_empty(), "after {left} bytes");
    }
    Ok(())
}
