// Checks an edition, as its command line asks (`edition_command`).
#![tactic(auto)]

use anyhow::{Result, bail};
use edition_command::{Words, run};
use std::env::FillError;
use std::process::ExitCode;
use std::rt::Env;

/// No word of a command line is longer (Linux's MAX_ARG_STRLEN).
const WORD_BYTES: usize = 131_072;

/// The words that the program was called with; nothing can be said of what these are.
fn words<R: Env + AllocGlobal>(rt: &R) -> Result<Words> {
    let alloc = rt.alloc();
    let mut buf = vec![in alloc; 0u8; WORD_BYTES]?;
    let mut words = Words::new(alloc);
    for i in 0..usize::MAX {
        match rt.arg(i, &mut buf) {
            Ok(n) => words.add(&buf[..n])?,
            Err(FillError::NotPresent) => break,
            Err(FillError::TooLong) => bail!("argument {i} has over {WORD_BYTES} bytes"),
        }
    }
    Ok(words)
}

fn main(rt: HostRuntime) -> ExitCode {
    ExitCode::from(run(&rt, words(&rt)).code())
}
