// Rescues damaged set files. Its arguments are a name table file (8,192 bytes of pool, then 257 words, low byte first) and pairs of a set file and
// the file to write. It writes what is kept, and prints how many records that are and each place that was skipped. What goes wrong with a pair is said
// on standard error, and the next pair is taken; the status is 1 then.
#![tactic(auto)]

ghost use Rattle.std.specs.Prelude.{◌≤◌, length};

use anyhow::{Context, Result, anyhow, bail};
use filling::fill_front;
use rescue::{Counts, inner, rescue};
use rules::{POOL_BYTES, RECORDS, TABLE_WORDS};
use std::env::FillError;
use std::process::ExitCode;
use std::rt::{Env, Files};
use std::{fs, str};

/// The pool and the table.
const NAMES_BYTES: usize = 9220;

/// One byte past the longest file that is taken: a longer one is refused with 8 by its front.
const FILE_BYTES: usize = 32784;

const KEPT_BYTES: usize = 32768;

const PLACES: usize = 2049;

/// No longer path can be opened.
const PATH_BYTES: usize = 4096;

/// An argument's bytes as a path. Bytes that aren't UTF-8 can't be opened: they are named with escapes.
fn path<R: AllocGlobal>(rt: &R, i: usize, bytes: &[u8]) -> Result<String> {
    match str::from_utf8(bytes) {
        Ok(text) => Ok(String::from_str(rt.alloc(), text)?),
        Err(_) => bail!("argument {i} is not UTF-8: {}", bytes.escape_ascii()),
    }
}

/// The argument with this number; `None` behind the last one.
fn argument<R: Env + AllocGlobal>(rt: &R, i: usize) -> Option<Result<String>> {
    let mut buf = [0u8; PATH_BYTES];
    match rt.arg(i, &mut buf) {
        Ok(n) => Some(path(rt, i, &buf[..n])),
        Err(FillError::TooLong) => Some(Err(anyhow!("argument {i} is longer than a path can be"))),
        Err(FillError::NotPresent) => None,
    }
}

/// Writes what is kept to a file.
fn write_kept<R: Files>(rt: &R, to: &str, kept: &[u8], c: Counts) -> Result<()> {
    let n = (c.kept.min(RECORDS) * 16).min(kept.len());
    fs::write(rt, to, &kept[..n]).context(format_args!("{to}"))?;
    Ok(())
}

/// Prints the counts and the places.
fn print_counts<R: Print>(rt: &R, skipped: &[u32], c: Counts) -> Result<()> {
    println!(rt; "{} records kept", c.kept)?;
    println!(rt; "{} places skipped", c.skipped)?;
    for place in &skipped[..c.skipped.min(skipped.len())] {
        println!(rt; "{place}")?;
    }
    Ok(())
}

/// Rescues a file, and writes what is kept to another. Where a read fails behind the first byte, standard error says so, and what was read is rescued.
/// Was the file read without a failure?
fn rescue_one<R: Files + Print + Eprint>(
    rt: &R,
    from: &str,
    to: &str,
    pool: &[u8],
    table: &[u32],
) -> Result<bool> {
    let mut source = fs::open(rt, from).context(format_args!("{from}"))?;
    let mut file = [0u8; FILE_BYTES];
    let (n, read) = fill_front(&mut source, &mut file);
    let whole = match read {
        Ok(()) => true,
        Err(error) if n == 0 => return Err(error).context(format_args!("{from}")),
        Err(error) => {
            let _ = eprintln!(rt; "{from}: reading stopped at byte {n}: {error}");
            false
        }
    };
    let mut kept = [0u8; KEPT_BYTES];
    let mut skipped = [0u32; PLACES];
    match rescue(pool, table, &file[..n], &mut kept, &mut skipped) {
        Ok(c) => {
            write_kept(rt, to, &kept, c)?;
            print_counts(rt, &skipped, c).context(format_args!(
                "{from}: {to} was written, but printing failed"
            ))?;
        }
        Err(r) => bail!("{from}: refused with {}", r.number()),
    }
    Ok(whole)
}

/// Rescues one pair of files, if both arguments are paths.
fn rescue_pair<R: Files + Print + Eprint>(
    rt: &R,
    from: Result<String>,
    to: Option<Result<String>>,
    pool: &[u8],
    table: &[u32],
) -> Result<bool> {
    let from = from?;
    let to = to.context(format_args!("{from}: no file to write is named"))??;
    rescue_one(rt, from.as_str(), to.as_str(), pool, table)
}

/// Rescues each pair of files that the arguments name, from the third on. A pair that fails is said and passed over, even where nobody can hear it.
/// Was there none?
fn rescue_all<R: Env + AllocGlobal + Files + Print + Eprint>(
    rt: &R,
    pool: &[u8],
    table: &[u32],
) -> bool {
    let mut good = true;
    for pair in 1..usize::MAX / 2 {
        let Some(from) = argument(rt, 2 * pair) else {
            break;
        };
        match rescue_pair(rt, from, argument(rt, 2 * pair + 1), pool, table) {
            Ok(whole) => good = good && whole,
            Err(error) => {
                let _ = eprintln!(rt; "{error:#}");
                good = false;
            }
        }
    }
    good
}

/// The same, with the table still to be taken from behind the pool.
fn rescue_named<R: Env + AllocGlobal + Files + Print + Eprint>(rt: &R, names: &[u8]) -> bool
    requires { 8192 ≤ length names.now }
{
    let mut table = [0u32; TABLE_WORDS];
    inner::fill(&names[POOL_BYTES..], &mut table);
    rescue_all(rt, &names[..POOL_BYTES], &table)
}

fn main(rt: HostRuntime) -> Result<ExitCode> {
    let path = argument(&rt, 1).context("no name table is named")??;
    let mut names = [0u8; NAMES_BYTES];
    let mut file = fs::open(&rt, path.as_str()).context(format_args!("{path}"))?;
    let (n, read) = fill_front(&mut file, &mut names);
    read.context(format_args!("{path}: reading stopped at byte {n}"))?;
    if n < NAMES_BYTES {
        bail!("{path}: the name table is short");
    }
    if rescue_named(&rt, &names) {
        Ok(ExitCode::SUCCESS)
    } else {
        Ok(ExitCode::FAILURE)
    }
}
