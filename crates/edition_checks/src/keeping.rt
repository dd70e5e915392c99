// What is kept of accepted sheets, and its certificate, which is read back.
ghost use Rattle.std.specs.Prelude.{◌≡◌, ◌++◌, true, [], map, Ok, IfOk, OnOk};
ghost use Rattle.std.specs.List.{list_any};
ghost use Rattle.edition_certificate_file.specs.Files.{keptOf, certificateText};
ghost use Rattle.edition_certificate_file.specs.Reading.{certificateRead};
ghost use Rattle.edition_certificate_file.specs.Writable.{allWritable, isIndented};
ghost use Rattle.edition_checks.specs.Keeping.{certifiedLine, certifiedLines, IsAdded, isFile, holdsFile};

use edition_certificate_file::theorems::kept_is_writable;
use edition_certificate_file::{Entry, certificate_text, is_kept, written_name};
use edition_certified::Verdict;
use edition_verify::keep;
use sha2::{Digest, Sha256};
use std::alloc::{AllocError, Global};

// Of a page's line that begins with two blanks the line of a certificate. A page shows a bound without a mark, and a certificate has one there; a line that
// begins with the mark is a binding's, since no name that is spelled begins with it.
fn put_line(out: &mut Vec<u8>, line: &[u8]) -> Result<(), AllocError>
    ensures { OnOk result (out.new.items ≡ out.old.items ++ certifiedLine line.now) }
{
    let Some(row) = line.strip_prefix(b"  ") else {
        return Ok(());
    };
    out.extend_from_slice(if row.starts_with(b"?") { b"  " } else { b"  ?" })?;
    out.extend_from_slice(row)?;
    out.extend_from_slice(b"\n")
}

/// The lines of an accepted page below its first, as a certificate has them: each with its blanks and its line feed.
#[tactic(auto, unfolding(rules::specs::Base::collect))]
pub fn certified_lines(alloc: Global, page: &[u8]) -> Result<Vec<u8>, AllocError>
    ensures is { IfOk result (λ v. v.items ≡ certifiedLines page.now) }
    ensures indented { IfOk result (λ v. isIndented v.items ≡ true) }
{
    let mut lines = Vec::new(alloc);
    for line in page.split(|b| *b == b'\n').skip(1) {
        put_line(&mut lines, line)?;
    }
    Ok(lines)
}

// Is this what is kept of a file with this name and this digest?
fn is_of(entry: &Entry, name: &[u8], digest: &[u8; 32]) -> bool
    ensures { result ≡ isFile name.now digest.now (keptOf entry.now) }
{
    entry.name.as_slice() == name && entry.digest == *digest
}

// Is there one of a file with this name and this digest?
fn is_one_of(entries: &[Entry], name: &[u8], digest: &[u8; 32]) -> bool
    ensures { result ≡ list_any (isFile name.now digest.now) (map keptOf entries.now) }
{
    for entry in entries {
        if is_of(entry, name, digest) {
            return true;
        }
    }
    false
}

/// What is kept of sheets: of no two with one name, and each so that it is read back.
#[derive(Drop)]
pub struct Keeping {
    pub entries: Vec<Entry>,
    ghost writable: { allWritable (map keptOf entries.items) ≡ true },
}

impl Keeping {
    /// Of no sheet.
    pub fn new(alloc: Global) -> Keeping
        ensures { result.entries.items ≡ [] }
    {
        Keeping {
            entries: Vec::new(alloc),
        }
    }

    /// Adds a sheet that is accepted, by its file's name, its bytes and its page: once: one of its name that is there
    /// already stays, and `holds` says whether that has its bytes. What is judged of the page's lines, if they don't make its constraints true.
    pub fn add(
        &mut self,
        alloc: Global,
        name: &[u8],
        text: &[u8],
        page: &[u8],
    ) -> Result<Option<Verdict>, AllocError>
        ensures { IfOk result (IsAdded name.now text.now (certifiedLines page.now) self.old.entries.items self.new.entries.items) }
    {
        let lines = certified_lines(alloc, page)?;
        let kept = keep(alloc, name, text, lines)?;
        let entry = match kept {
            Ok(entry) => entry,
            Err(verdict) => return Ok(Some(verdict)),
        };
        if is_kept(&self.entries, &entry.name) {
            return Ok(None);
        }
        kept_is_writable(&entry);
        self.entries.push(entry)?;
        Ok(None)
    }

    /// Is this file kept: a sheet of its name, with its bytes?
    pub fn holds(&self, alloc: Global, name: &[u8], text: &[u8]) -> Result<bool, AllocError>
        ensures { IfOk result (λ b. b ≡ holdsFile name.now text.now self.now.entries.items) }
    {
        let named = written_name(alloc, name)?;
        let digest = Sha256::digest(text);
        Ok(is_one_of(&self.entries, &named, &digest))
    }

    /// They as a certificate: its text, of which `edition_certificate_file::read_certificate` reads just what is kept.
    pub fn text(&self) -> Result<Vec<u8>, AllocError>
        ensures is { IfOk result (λ v. v.items ≡ certificateText self.now.entries.items) }
        ensures read { IfOk result (λ v. certificateRead v.items ≡ Ok (map keptOf self.now.entries.items)) }
    {
        certificate_text(*self.entries.allocator(), &self.entries)
    }
}
