// Runs the command `check_edition` with each line of standard input as a command line, up to an empty one; what stands behind that is the command's own
// standard input. It runs in a folder with the files of data/, and with files that are too large to be kept there, or of a kind that isn't kept: a second
// name of one, and one that can't be read. Written are each line, what the command says of it, and its status.
#![tactic(auto)]

use anyhow::{Context, Result};
use edition_command::{Words, run};
use std::alloc::Global;
use std::fs;
use std::fs::Permissions;
use std::io::Write;
use std::os::unix::fs::PermissionsExt;
use std::rt::Files;

/// A file of so many bytes: a comment.
fn make_comment<R: Files + AllocGlobal>(rt: &R, path: &str, bytes: usize) -> Result<()> {
    let text = vec![in rt.alloc(); b'-'; bytes]?;
    make(rt, path, &text)
}

/// A sheet of one line: a variable is a product of so many factors.
fn make_product<R: Files + AllocGlobal>(rt: &R, path: &str, factors: usize) -> Result<()> {
    let mut text = Vec::new(rt.alloc());
    text.extend_from_slice(b"?x ~ [#b")?;
    for _ in 0..factors {
        text.extend_from_slice(b" * #a")?;
    }
    text.extend_from_slice(b"]\n")?;
    make(rt, path, &text)
}

/// A file with these bytes.
fn make<R: Files>(rt: &R, path: &str, text: &[u8]) -> Result<()> {
    let mut file = fs::create(rt, path)?;
    file.write_all(text).context("a file can't be made")
}

/// A file that may be written and not read.
fn make_unreadable<R: Files>(rt: &R, path: &str) -> Result<()> {
    make(rt, path, b"kept\n")?;
    fs::set_permissions(rt, path, Permissions::from_mode(0o222)).context(
        "a file can't be made unreadable",
    )
}

/// The command lines: those of standard input in front of an empty one.
fn command_lines<R: Input + AllocGlobal>(rt: &R) -> Result<Vec<String>> {
    let mut lines = Vec::new(rt.alloc());
    for line in rt.lines(rt.alloc()) {
        let line = line?;
        if line.is_empty() {
            break;
        }
        lines.push(line)?;
    }
    Ok(lines)
}

/// The words of a line, behind the command's name.
fn words(alloc: Global, line: &str) -> Result<Words> {
    let mut words = Words::new(alloc);
    words.add(b"check_edition")?;
    for word in line.split_whitespace() {
        words.add(word.as_bytes())?;
    }
    Ok(words)
}

fn main(rt: HostRuntime) -> Result<()> {
    let alloc = rt.alloc();
    make_comment(&rt, "whole.sheet", 1_048_576)?;
    make_comment(&rt, "long.sheet", 1_048_577)?;
    make_product(&rt, "factors.sheet", 20_000)?;
    make_unreadable(&rt, "unread.txt")?;
    fs::hard_link(&rt, "empty.sheet", "linked.txt")?;
    for line in command_lines(&rt)? {
        println!(rt; "$ check_edition {line}")?;
        let status = run(&rt, words(alloc, &line)).code();
        println!(rt; "status {status}\n")?;
    }
    Ok(())
}
