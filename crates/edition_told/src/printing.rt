// Standard output.
use anyhow::{Context, Result};
use std::io;
use std::io::Write;

/// Prints a report, all at once.
pub fn print_whole<R: Print>(rt: &R, report: &[u8]) -> Result<()> {
    let mut out = io::writer(rt);
    out.write_all(report)
        .context("the report can't be written")?;
    out.flush().context("the report can't be written")
}
