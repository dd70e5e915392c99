// Standard output.
use anyhow::Result;
use edition_checks::written::Written;
use std::io;
use std::io::{BufWriter, Printer};

/// Standard output, which is written in blocks, and at each line's end.
pub(crate) fn output<R: Print + AllocGlobal>(rt: &R) -> Result<Written<BufWriter<Printer<'_, R>>>> {
    let alloc = rt.alloc();
    Ok(Written::new(alloc, BufWriter::new(alloc, io::writer(rt))?))
}
