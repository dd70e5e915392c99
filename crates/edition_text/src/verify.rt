// Sheets judged by a certificate, with nothing solved: a line for each.
ghost use Rattle.std.specs.Prelude.{IfOk};
ghost use Rattle.edition_checks.specs.Counts.{CountsCertified};
ghost use Rattle.edition_checks.specs.Given.{given_of};

use crate::output::output;
use anyhow::{Context, Result};
use edition_certificate_file::{Entry, Fault, read_certificate};
use edition_checks::by_certificate::verify_on;
use edition_checks::files::Given;
use edition_checks::status::Totals;
use edition_checks::written::Written;
use edition_report::shown::put_shown;
use edition_report::words::put_amount;
use filling::fill_front;
use rules::Unseen;
use std::alloc::AllocError;
use std::fs;
use std::io::Write;
use std::rt::Files;
use text_spell::sink::Sink;

/// A certificate's file is read in pieces of so many bytes.
const PIECE_BYTES: usize = 1_048_576;

/// It has at most so many pieces.
const PIECES: usize = 64;

/// It has at most so many bytes: a longer one is neither read nor written.
pub(crate) const MOST_BYTES: usize = PIECES * PIECE_BYTES;

/// How a certificate begins whose lines were given carriage returns.
const RETURNED: &[u8] = b"check_edition certificate 1\r\n";

// Why a certificate's file can't be had, in words.
fn unseen(why: Unseen) -> &'static [u8] {
    match why {
        Unseen::NotOpened => b": the certificate can't be opened\n",
        Unseen::NotRead => b": the certificate can't be read\n",
        Unseen::TooLong => b": the certificate is longer than 64 MB\n",
    }
}

// Says why a file with this text can't be used as a certificate.
fn put_fault(out: &mut Vec<u8>, path: &[u8], text: &[u8], fault: Fault) -> Result<(), AllocError> {
    put_shown(out, path)?;
    match fault {
        Fault::Other => out.put(b": this is no certificate\n"),
        Fault::Version if text.starts_with(RETURNED) => out.put(
            b": the certificate's lines end with carriage returns: it isn't as it was written\n",
        ),
        Fault::Version => out.put(b": the certificate is of another version\n"),
        Fault::Torn => out.put(b": the certificate is torn: it has no last line\n"),
        Fault::Line(number) => {
            out.put(b":")?;
            put_amount(out, number)?;
            out.put(b": no such line stands here in a certificate\n")
        }
    }
}

// The bytes of a certificate's file, or why they can't be had.
fn read_file<R: Files + AllocGlobal>(rt: &R, path: &str) -> Result<Result<Vec<u8>, Unseen>> {
    let alloc = rt.alloc();
    let Ok(mut file) = fs::open(rt, path) else {
        return Ok(Err(Unseen::NotOpened));
    };
    let mut piece = vec![in alloc; 0u8; PIECE_BYTES]?;
    let mut text = Vec::new(alloc);
    // One piece more, of which nothing may be there.
    for k in 0..=PIECES {
        let (n, read) = fill_front(&mut file, &mut piece);
        if read.is_err() {
            return Ok(Err(Unseen::NotRead));
        }
        if k == PIECES && 0 < n {
            return Ok(Err(Unseen::TooLong));
        }
        text.extend_from_slice(&piece[..n])?;
        if n < piece.len() {
            return Ok(Ok(text));
        }
    }
    Ok(Err(Unseen::TooLong))
}

// What the certificate in a file keeps; or a line that says why it can't be used.
fn kept_in<R: Files + AllocGlobal>(rt: &R, path: &str) -> Result<Result<Vec<Entry>, Vec<u8>>> {
    let alloc = rt.alloc();
    let mut line = Vec::new(alloc);
    let text = match read_file(rt, path)? {
        Ok(text) => text,
        Err(why) => {
            put_shown(&mut line, path.as_bytes())?;
            line.put(unseen(why))?;
            return Ok(Err(line));
        }
    };
    match read_certificate(alloc, &text)? {
        Ok(entries) => Ok(Ok(entries)),
        Err(fault) => {
            put_fault(&mut line, path.as_bytes(), &text, fault)?;
            Ok(Err(line))
        }
    }
}

// What the certificate in a file keeps; where it can't be used a line is put that says why, and it keeps nothing.
fn entries_in<R: Files + AllocGlobal, W: Write + Drop>(
    rt: &R,
    path: &str,
    out: &mut Written<W>,
) -> Result<Vec<Entry>> {
    match kept_in(rt, path)? {
        Ok(entries) => Ok(entries),
        Err(line) => {
            out.put(&line).context("what is verified can't be written")?;
            Ok(Vec::new(rt.alloc()))
        }
    }
}

/// Judges files by the certificate in the file at `path`; where there is none, no sheet is verified. Counted are the files and what else the certificate
/// keeps, and the files that are verified.
pub fn check<R: Files + Print + AllocGlobal>(rt: &R, path: &str, given: &[Given]) -> Result<Totals>
    ensures { IfOk result (λ t. CountsCertified (given_of given.now) t.sheets t.accepted) }
{
    let mut out = output(rt)?;
    let entries = entries_in(rt, path, &mut out)?;
    verify_on(rt.alloc(), &entries, given, &mut out)
}
