//! Files judged by a certificate, with nothing solved: a line for each, for each sheet of the certificate that wasn't named, and for all.
#![tactic(auto)]

mod pieces;

ghost use Rattle.std.specs.Prelude.{◌≡◌, ◌≤◌, ◌++◌, true, option_copied, IfOk, OnOk};
ghost use Rattle.rules.specs.Base.{collect};
ghost use Rattle.rules.specs.Names.{sameBytes};
ghost use Rattle.rules.specs.Refusals.{number_of};
ghost use Rattle.laws.specs.Lists.{Every};
ghost use Rattle.edition.specs.Files.{files_of};
ghost use Rattle.edition_certificate_file.specs.Files.{writtenName};
ghost use Rattle.edition_certified.specs.Certified.{said};
ghost use Rattle.edition_certified.specs.declared.Verdict.TheVariants as verdict;
ghost use Rattle.edition_verify.specs.Files.{had};
ghost use Rattle.edition_verify.specs.Verifying.{findEntry, wordBy, wordOf, word, isYes, isNamed};
ghost use Rattle.edition_verify.specs.Verifying.{linesRefused, saidText, wordText, fileText, otherText, lastText, verifiedText};
ghost use Rattle.edition_verify.specs.Verifying.{CertifiedBy, IsKeptOf, TrueBy, YesIsTrue, verifiedIn, othersIn, sheetsIn};

use edition::model::File;
use edition_certificate_file::{Entry, written_name};
use edition_certified::{Verdict, certify};
use pieces::{put_name, put_number, put_reason, put_refusal, put_sheets};
use rules::{Refusal, Unseen};
use sha2::{Digest, Sha256};
use std::alloc::{AllocError, Global};
use text_sheet::NotRead;

/// What is said of a file by a certificate.
#[derive(Clone, Copy)]
pub enum Answer {
    /// It keeps no sheet of this name.
    Unkept,
    /// The file can't be had.
    Unseen(Unseen),
    /// What it keeps of the sheet, judged over the file.
    Judged(Verdict),
}

impl Answer {
    /// Is the file verified?
    pub fn is_yes(self) -> bool
        ensures { result ≡ isYes (word self) }
    {
        matches!(self, Answer::Judged(Verdict::Verified))
    }
}

/// What is kept of the file of a sheet with lines that make its constraints true; or what is said to them, if they don't.
pub fn keep(
    alloc: Global,
    name: &[u8],
    text: &[u8],
    lines: Vec<u8>,
) -> Result<Result<Entry, Verdict>, AllocError>
    ensures { IfOk result (IsKeptOf name.now text.now lines.items) }
{
    let digest = Sha256::digest(text);
    match certify(alloc, &digest, text, &lines)? {
        Verdict::Verified => Ok(Ok(Entry {
            name: written_name(alloc, name)?,
            digest,
            lines,
        })),
        other => Ok(Err(other)),
    }
}

/// How many sheets were told of, and how many of them are verified.
#[derive(Clone, Copy)]
pub struct Verified {
    pub sheets: usize,
    pub verified: usize,
}

// Are these the same bytes?
fn is_same(a: &[u8], b: &[u8]) -> bool
    ensures { result ≡ sameBytes a.now b.now }
{
    a == b
}

// What a certificate keeps under a name as it is written there.
fn find<'e>(entries: &'e [Entry], name: &[u8]) -> Option<&'e Entry>
    ensures { option_copied result ≡ findEntry name.now entries.now }
{
    for entry in entries {
        if is_same(&entry.name, name) {
            return Some(entry);
        }
    }
    None
}

// What is said of a file by what is kept of it.
#[tactic(auto, unfolding(crate::specs::Files::had))]
fn judge_by(alloc: Global, entry: &Entry, file: &File) -> Result<Answer, AllocError>
    ensures answer { IfOk result (λ a. word a ≡ wordBy entry.now (had file.now).1) }
    ensures truth { IfOk result (λ a. isYes (word a) ≡ true → CertifiedBy entry.now (had file.now).1) }
{
    match file.text {
        Ok(text) => Ok(Answer::Judged(certify(alloc, &entry.digest, text, &entry.lines)?)),
        Err(why) => Ok(Answer::Unseen(why)),
    }
}

// What is said of a file.
#[tactic(auto, unfolding(crate::specs::Files::had, crate::specs::Verifying::wordOf))]
fn judge(alloc: Global, entries: &[Entry], file: &File) -> Result<Answer, AllocError>
    ensures answer { IfOk result (λ a. word a ≡ wordOf entries.now (had file.now)) }
    ensures truth { OnOk result (YesIsTrue entries.now (had file.now)) }
{
    let name = written_name(alloc, file.name)?;
    match find(entries, &name) {
        Some(entry) => judge_by(alloc, entry, file),
        None => Ok(Answer::Unkept),
    }
}

// Puts a place in a sheet that is refused, and the refusal.
fn put_unread(out: &mut Vec<u8>, stop: NotRead) -> Result<(), AllocError>
    ensures { OnOk result (out.new.items ≡ out.old.items ++ saidText (said (verdict.Unread stop))) }
{
    out.extend_from_slice(b":")?;
    put_number(out, stop.line)?;
    out.extend_from_slice(b":")?;
    put_number(out, stop.column)?;
    out.extend_from_slice(b": not verified: ")?;
    put_refusal(out, stop.why)?;
    out.extend_from_slice(b"\n")?;
    Ok(())
}

// Puts a place in the lines of a certificate, and the refusal.
fn put_lines_unread(out: &mut Vec<u8>, stop: NotRead) -> Result<(), AllocError>
    ensures { OnOk result (out.new.items ≡ out.old.items ++ saidText (said (verdict.LinesUnread stop))) }
{
    out.extend_from_slice(b": not verified: of the certificate's lines for it line ")?;
    put_number(out, stop.line)?;
    out.extend_from_slice(b", column ")?;
    put_number(out, stop.column)?;
    out.extend_from_slice(b", is ")?;
    put_refusal(out, stop.why)?;
    out.extend_from_slice(b"\n")?;
    Ok(())
}

// Puts why lines of a certificate that were read are refused: 1 and 12 have other causes there than in a sheet.
fn put_lines_reason(out: &mut Vec<u8>, why: Refusal) -> Result<(), AllocError>
    ensures { OnOk result (out.new.items ≡ out.old.items ++ linesRefused (number_of why)) }
{
    match why {
        Refusal::Malformed => out.extend_from_slice(
            b"not accepted (1): a variable is bound twice, or bounded names don't rise by their bytes\n",
        ),
        Refusal::NotGrammar => {
            out.extend_from_slice(b"not accepted (12): a line is neither ?x ~ type nor ?x: DType\n")
        }
        Refusal::NameLength
        | Refusal::NoRoom
        | Refusal::Mixed
        | Refusal::Unsolved
        | Refusal::NotDimension
        | Refusal::OutOfRange
        | Refusal::TooLarge
        | Refusal::WrongCount
        | Refusal::ShortBuffer
        | Refusal::NotConfirmed => {
            put_refusal(out, why)?;
            out.extend_from_slice(b"\n")
        }
    }
}

// Puts that the lines of a certificate are refused.
fn put_lines_refused(out: &mut Vec<u8>, why: Refusal) -> Result<(), AllocError>
    ensures { OnOk result (out.new.items ≡ out.old.items ++ saidText (said (verdict.Refused why))) }
{
    out.extend_from_slice(b": not verified: the certificate's lines for it are ")?;
    put_lines_reason(out, why)
}

// Puts what is said of a file whose sheet is kept.
fn put_verdict(out: &mut Vec<u8>, verdict: Verdict) -> Result<(), AllocError>
    ensures { OnOk result (out.new.items ≡ out.old.items ++ saidText (said verdict)) }
{
    match verdict {
        Verdict::Verified => out.extend_from_slice(b": verified\n"),
        Verdict::Changed => out.extend_from_slice(
            b": not verified: the file isn't the one that was certified: its digest is another\n",
        ),
        Verdict::Unread(stop) => put_unread(out, stop),
        Verdict::LinesUnread(stop) => put_lines_unread(out, stop),
        Verdict::Untrue => out.extend_from_slice(
            b": not verified: a constraint isn't true by the certificate's lines\n",
        ),
        Verdict::Refused(why) => put_lines_refused(out, why),
    }
}

// Puts what is said of a file.
fn put_answer(out: &mut Vec<u8>, answer: Answer) -> Result<(), AllocError>
    ensures { OnOk result (out.new.items ≡ out.old.items ++ wordText (word answer)) }
{
    match answer {
        Answer::Unkept => out.extend_from_slice(
            b": not verified: the certificate has no such sheet\n",
        ),
        Answer::Unseen(why) => {
            out.extend_from_slice(b": ")?;
            put_reason(out, why)
        }
        Answer::Judged(verdict) => put_verdict(out, verdict),
    }
}

// Judges a file, and puts its line. Is it verified?
#[tactic(auto, unfolding(crate::specs::Files::had, crate::specs::Verifying::fileText))]
fn tell_file(
    alloc: Global,
    entries: &[Entry],
    file: &File,
    out: &mut Vec<u8>,
) -> Result<bool, AllocError>
    ensures told { OnOk result (out.new.items ≡ out.old.items ++ fileText entries.now (had file.now)) }
    ensures answer { IfOk result (λ b. b ≡ isYes (wordOf entries.now (had file.now))) }
    ensures truth { OnOk result (YesIsTrue entries.now (had file.now)) }
{
    let answer = judge(alloc, entries, file)?;
    put_name(out, file.name)?;
    put_answer(out, answer)?;
    Ok(answer.is_yes())
}

// Judges files, and puts a line for each. How many are verified?
fn tell_files(
    alloc: Global,
    entries: &[Entry],
    files: &[File],
    out: &mut Vec<u8>,
) -> Result<usize, AllocError>
    ensures told { OnOk result (out.new.items ≡ out.old.items ++ collect (fileText entries.now) (files_of files.now)) }
    ensures counted { IfOk result (λ n. n ≡ verifiedIn entries.now (files_of files.now)) }
    ensures truth { OnOk result (Every (YesIsTrue entries.now) (files_of files.now)) }
{
    let mut verified = 0;
    for file in files {
        let yes = tell_file(alloc, entries, file, out)?;
        verified += usize::from(yes);
    }
    Ok(verified)
}

// Is this the file whose sheet is kept?
#[tactic(auto, unfolding(crate::specs::Files::had))]
fn has_name(alloc: Global, file: &File, entry: &Entry) -> Result<bool, AllocError>
    ensures { IfOk result (λ b. b ≡ sameBytes entry.now.name.items (writtenName (had file.now).0)) }
{
    let name = written_name(alloc, file.name)?;
    Ok(is_same(&entry.name, &name))
}

// Is a sheet of the certificate among the files that are named?
#[tactic(auto, unfolding(crate::specs::Verifying::isNamed))]
fn is_named(alloc: Global, files: &[File], entry: &Entry) -> Result<bool, AllocError>
    ensures { IfOk result (λ b. b ≡ isNamed (files_of files.now) entry.now) }
{
    for file in files {
        let named = has_name(alloc, file, entry)?;
        if named {
            return Ok(true);
        }
    }
    Ok(false)
}

// Puts the line of a sheet of the certificate, if it isn't among the files that are named.
fn tell_other(
    alloc: Global,
    files: &[File],
    entry: &Entry,
    out: &mut Vec<u8>,
) -> Result<bool, AllocError>
    ensures told { OnOk result (out.new.items ≡ out.old.items ++ otherText (files_of files.now) entry.now) }
    ensures answer { IfOk result (λ b. b ≡ isNamed (files_of files.now) entry.now) }
{
    if is_named(alloc, files, entry)? {
        return Ok(true);
    }
    put_name(out, &entry.name)?;
    out.extend_from_slice(b": not verified: it stands in the certificate and wasn't named\n")?;
    Ok(false)
}

// Puts a line for each sheet of the certificate that isn't among the files that are named. How many are there?
fn tell_others(
    alloc: Global,
    files: &[File],
    entries: &[Entry],
    out: &mut Vec<u8>,
) -> Result<usize, AllocError>
    ensures told { OnOk result (out.new.items ≡ out.old.items ++ collect (otherText (files_of files.now)) entries.now) }
    ensures counted { IfOk result (λ n. n ≡ othersIn (files_of files.now) entries.now) }
{
    let mut others = 0;
    for entry in entries {
        let named = tell_other(alloc, files, entry, out)?;
        others += usize::from(!named);
    }
    Ok(others)
}

// Puts the last line: how many sheets, how many of them are verified, and how many not.
fn put_last(out: &mut Vec<u8>, sheets: usize, verified: usize) -> Result<(), AllocError>
    ensures { OnOk result (out.new.items ≡ out.old.items ++ lastText sheets verified) }
{
    put_sheets(out, sheets)?;
    out.extend_from_slice(b", ")?;
    put_number(out, verified)?;
    out.extend_from_slice(b" verified, ")?;
    put_number(out, sheets.saturating_sub(verified))?;
    out.extend_from_slice(b" not verified\n")?;
    Ok(())
}

/// Judges files by what a certificate keeps, with nothing solved: puts a line for each file, one for each sheet that is kept and isn't among them, and one
/// for all. A file is verified only where it has the digest that is kept under its name, and each of its constraints is true by the lines that are.
pub fn verify_files(
    alloc: Global,
    entries: &[Entry],
    files: &[File],
    out: &mut Vec<u8>,
) -> Result<Verified, AllocError>
    ensures told { OnOk result (out.new.items ≡ out.old.items ++ verifiedText entries.now (files_of files.now)) }
    ensures counted { IfOk result (λ n. (n.sheets ≡ sheetsIn entries.now (files_of files.now)) × (n.verified ≡ verifiedIn entries.now (files_of files.now))) }
    ensures truth { OnOk result (Every (YesIsTrue entries.now) (files_of files.now)) }
    ensures all { IfOk result (λ n. n.sheets ≤ n.verified → Every (TrueBy entries.now) (files_of files.now)) }
{
    let verified = tell_files(alloc, entries, files, out)?;
    let others = tell_others(alloc, files, entries, out)?;
    let sheets = files.len() + others;
    put_last(out, sheets, verified)?;
    Ok(Verified { sheets, verified })
}
