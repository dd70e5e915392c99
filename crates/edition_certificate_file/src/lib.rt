//! A certificate's file, as text: of each sheet the name of its file, the file's digest, and lines that make its constraints true. docs/EDITION.md says
//! what stands in it, line by line.
#![tactic(auto)]

pub mod theorems;

ghost use Rattle.std.specs.Prelude.{◌≡◌, ◌++◌, IfOk, OnOk, [], map, option_map};
ghost use Rattle.std.specs.List.{slice_split};
ghost use Rattle.hex.specs.Hex.{encode_lower};
ghost use Rattle.rules.specs.Base.{collect};
ghost use Rattle.rules.specs.Grammar.{ascii};
ghost use Rattle.rules.specs.Reports.{amount};
ghost use Rattle.edition_certificate_file.specs.Files.{isEscaped, writtenByte, writtenName, keptOf, entryText, lastLine, certificateText, IsReadFrom};
ghost use Rattle.edition_certificate_file.specs.Reading.{
  between,
  isKept,
  betweenRead,
  digestIn,
  digestRead,
  insideRead,
  placeOf,
  reached,
  lineRead,
  allRead,
  lineFeed,
  linesRead,
  keptIn,
  otherwise,
  restRead,
  textRead,
  certificateRead,
};

use hex::FromHex;
use std::alloc::{AllocError, Global};
use text_spell::put_digits;

/// The first line: what it is, and of which version.
const FIRST: &[u8] = b"check_edition certificate 1\n";

/// The first line of every version begins so.
const BEGINS: &[u8] = b"check_edition certificate ";

// Behind the lines of a sheet.
const END: &[u8] = b"end";

/// What a certificate keeps of a sheet: its file's name as it is written there, the file's digest, and lines over the sheet's names, each behind two
/// blanks and with its line feed.
#[derive(Drop)]
pub struct Entry {
    pub name: Vec<u8>,
    pub digest: [u8; 32],
    pub lines: Vec<u8>,
}

/// Why a file can't be used as a certificate.
#[derive(Clone, Copy)]
pub enum Fault {
    /// It doesn't begin as one.
    Other,
    /// It is one of another version.
    Version,
    /// The line with this number doesn't stand where it may.
    Line(usize),
    /// It ends before its last line.
    Torn,
}

// Is a byte written with digits?
fn is_escaped(b: u8) -> bool
    ensures { result ≡ isEscaped b }
{
    b < 32 || b == 127 || b == b'\\'
}

// Writes a byte of a name.
fn put_byte(out: &mut Vec<u8>, b: u8) -> Result<(), AllocError>
    ensures { OnOk result (out.new.items ≡ out.old.items ++ writtenByte b) }
{
    if !is_escaped(b) {
        return out.extend_from_slice(&[b]);
    }
    let digits = hex::encode(*out.allocator(), [b])?;
    out.extend_from_slice(b"\\")?;
    out.extend_from_slice(digits.as_bytes())
}

/// The name of a file as it is written in a certificate: a control byte, and "\" itself, as "\" and two hex digits.
pub fn written_name(alloc: Global, name: &[u8]) -> Result<Vec<u8>, AllocError>
    ensures { IfOk result (λ v. v.items ≡ writtenName name.now) }
{
    let mut out = Vec::new(alloc);
    for b in name {
        put_byte(&mut out, *b)?;
    }
    Ok(out)
}

impl Entry {
    // Writes the line with its name.
    fn put_name(&self, out: &mut Vec<u8>) -> Result<(), AllocError>
        ensures { OnOk result (out.new.items ≡ out.old.items ++ (ascii "sheet " ++ (self.now.name.items ++ ascii "\nsha256 "))) }
    {
        out.extend_from_slice(b"sheet ")?;
        out.extend_from_slice(&self.name)?;
        out.extend_from_slice(b"\nsha256 ")
    }

    // Writes its digest and its lines.
    fn put_lines(&self, out: &mut Vec<u8>) -> Result<(), AllocError>
        ensures { OnOk result (out.new.items ≡ out.old.items ++ (encode_lower self.now.digest ++ (ascii "\n" ++ (self.now.lines.items ++ ascii "end\n")))) }
    {
        let digits = hex::encode(*out.allocator(), self.digest)?;
        out.extend_from_slice(digits.as_bytes())?;
        out.extend_from_slice(b"\n")?;
        out.extend_from_slice(&self.lines)?;
        out.extend_from_slice(b"end\n")
    }

    // Writes all of it.
    #[tactic(auto, unfolding(crate::specs::Files::keptText))]
    fn put(&self, out: &mut Vec<u8>) -> Result<(), AllocError>
        ensures { OnOk result (out.new.items ≡ out.old.items ++ entryText self.now) }
    {
        self.put_name(out)?;
        self.put_lines(out)
    }
}

// Writes what is kept of sheets.
fn put_entries(entries: &[Entry], out: &mut Vec<u8>) -> Result<(), AllocError>
    ensures { OnOk result (out.new.items ≡ out.old.items ++ collect entryText entries.now) }
{
    for entry in entries {
        entry.put(out)?;
    }
    Ok(())
}

// Writes a number.
fn put_number(out: &mut Vec<u8>, n: usize) -> Result<(), AllocError>
    ensures { OnOk result (out.new.items ≡ out.old.items ++ amount n) }
{
    put_digits(out, 10, n)
}

// Writes the last line, without its line feed.
fn put_last(sheets: usize, out: &mut Vec<u8>) -> Result<(), AllocError>
    ensures { OnOk result (out.new.items ≡ out.old.items ++ lastLine sheets) }
{
    out.extend_from_slice(b"sheets ")?;
    put_number(out, sheets)
}

/// A certificate as text: where the entries are writable, `read_certificate` reads it back (`theorems::written_and_read`).
#[tactic(auto, unfolding(crate::specs::Files::keptsText))]
pub fn certificate_text(alloc: Global, entries: &[Entry]) -> Result<Vec<u8>, AllocError>
    ensures { IfOk result (λ v. v.items ≡ certificateText entries.now) }
{
    let mut out = Vec::new(alloc);
    out.extend_from_slice(FIRST)?;
    put_entries(entries, &mut out)?;
    put_last(entries.len(), &mut out)?;
    out.extend_from_slice(b"\n")?;
    Ok(out)
}

// Where a line stands: between sheets; behind a sheet's name; behind its digest, with what is kept so far; behind the last line.
#[derive(Drop)]
enum Stage<'a> {
    Between,
    Named(&'a [u8]),
    Inside(Entry),
    Ended,
}

/// Is a sheet of this name kept?
pub fn is_kept(entries: &[Entry], name: &[u8]) -> bool
    ensures { result ≡ isKept name.now (map keptOf entries.now) }
{
    for entry in entries {
        if entry.name.as_slice() == name {
            return true;
        }
    }
    false
}

// A line between sheets: the name of one that isn't there yet, or the last line.
#[tactic(auto, unfolding(crate::specs::Reading::betweenRead))]
fn between<'a>(
    alloc: Global,
    entries: &[Entry],
    line: &'a [u8],
) -> Result<Option<Stage<'a>>, AllocError>
    ensures { IfOk result (λ s. option_map placeOf s ≡ betweenRead (map keptOf entries.now) line.now) }
{
    if let Some(name) = line.strip_prefix(b"sheet ") {
        if is_kept(entries, name) {
            return Ok(None);
        }
        return Ok(Some(Stage::Named(name)));
    }
    let mut last = Vec::new(alloc);
    put_last(entries.len(), &mut last)?;
    if last.as_slice() == line {
        return Ok(Some(Stage::Ended));
    }
    Ok(None)
}

// The digest on a line: 64 digits, none of them a capital.
#[tactic(auto, unfolding(crate::specs::Reading::digestIn))]
fn digest_in(line: &[u8]) -> Option<[u8; 32]>
    ensures { result ≡ digestIn line.now }
{
    let digits = line.strip_prefix(b"sha256 ")?;
    if digits.iter().any(|b| b.is_ascii_uppercase()) {
        return None;
    }
    <[u8; 32] as FromHex>::from_hex(digits).ok()
}

// The line with a sheet's digest.
fn digest<'a>(alloc: Global, name: &[u8], line: &[u8]) -> Result<Option<Stage<'a>>, AllocError>
    ensures { IfOk result (λ s. option_map placeOf s ≡ digestRead name.now line.now) }
{
    let Some(digest) = digest_in(line) else {
        return Ok(None);
    };
    Ok(Some(Stage::Inside(Entry {
        name: Vec::from_slice(alloc, name)?,
        digest,
        lines: Vec::new(alloc),
    })))
}

// A line that says something of a variable, or the end of a sheet's lines.
#[tactic(auto, unfolding(crate::specs::Reading::insideRead))]
fn inside<'a>(
    entries: &mut Vec<Entry>,
    mut entry: Entry,
    line: &[u8],
) -> Result<Option<Stage<'a>>, AllocError>
    ensures { IfOk result (λ s. option_map (reached entries.new) s ≡ insideRead (map keptOf entries.old.items) (keptOf entry) line.now) }
{
    if line == END {
        entries.push(entry)?;
        return Ok(Some(Stage::Between));
    }
    if !line.starts_with(b"  ") {
        return Ok(None);
    }
    entry.lines.extend_from_slice(line)?;
    entry.lines.push(b'\n')?;
    Ok(Some(Stage::Inside(entry)))
}

// Takes a line, and says where the next one stands; none: this one may not stand here.
#[tactic(auto, unfolding(crate::specs::Reading::lineRead))]
fn take<'a>(
    entries: &mut Vec<Entry>,
    stage: Stage<'a>,
    line: &'a [u8],
) -> Result<Option<Stage<'a>>, AllocError>
    ensures { IfOk result (λ s. option_map (reached entries.new) s ≡ lineRead (reached entries.old stage.entry) line.now) }
{
    let alloc = *entries.allocator();
    match stage {
        Stage::Between => between(alloc, entries, line),
        Stage::Named(name) => digest(alloc, name, line),
        Stage::Inside(entry) => inside(entries, entry, line),
        Stage::Ended => Ok(None),
    }
}

// Behind all lines: the sheets, if the last line was read.
fn all(entries: Vec<Entry>, stage: Stage<'_>) -> Result<Vec<Entry>, Fault>
    ensures { keptIn result ≡ allRead (reached entries stage.entry) }
{
    match stage {
        Stage::Ended => Ok(entries),
        _ => Err(Fault::Torn),
    }
}

// The sheets of lines behind the first, or the first of them that doesn't stand where it may.
fn sheets_of(alloc: Global, lines: &[u8]) -> Result<Result<Vec<Entry>, Fault>, AllocError>
    ensures { IfOk result (λ r. keptIn r ≡ linesRead 2 ([], between) (slice_split lineFeed lines.now)) }
{
    let mut entries = Vec::new(alloc);
    let mut stage = Stage::Between;
    for (k, line) in lines.split(|b| *b == b'\n').enumerate() {
        let Some(next) = take(&mut entries, stage, line)? else {
            return Ok(Err(Fault::Line(k + 2)));
        };
        stage = next;
    }
    Ok(all(entries, stage))
}

// Why a text that doesn't begin with the first line is no certificate.
#[tactic(auto, unfolding(crate::specs::Reading::otherwise))]
fn otherwise(text: &[u8]) -> Fault
    ensures { result ≡ otherwise text.now }
{
    if !text.starts_with(BEGINS) {
        return Fault::Other;
    }
    if text.ends_with(b"\n") {
        return Fault::Version;
    }
    Fault::Torn
}

// The sheets of what stands behind the first line.
#[tactic(auto, unfolding(crate::specs::Reading::restRead))]
fn sheets_in(alloc: Global, rest: &[u8]) -> Result<Result<Vec<Entry>, Fault>, AllocError>
    ensures { IfOk result (λ r. keptIn r ≡ restRead rest.now) }
{
    match rest.strip_suffix(b"\n") {
        Some(lines) => sheets_of(alloc, lines),
        None => Ok(Err(Fault::Torn)),
    }
}

// The sheets of a text by its lines, or why it has none.
#[tactic(auto, unfolding(crate::specs::Reading::textRead))]
fn sheets(alloc: Global, text: &[u8]) -> Result<Result<Vec<Entry>, Fault>, AllocError>
    ensures { IfOk result (λ r. keptIn r ≡ textRead text.now) }
{
    if text.starts_with(FIRST) {
        sheets_in(alloc, &text[FIRST.len()..])
    } else {
        Ok(Err(otherwise(text)))
    }
}

/// Reads a certificate: its sheets, or why it isn't one. What is read is written again and compared, so that each byte of the text is accounted for.
#[tactic(auto, unfolding(crate::specs::Reading::certificateRead))]
pub fn read_certificate(alloc: Global, text: &[u8]) -> Result<Result<Vec<Entry>, Fault>, AllocError>
    ensures answer { IfOk result (λ r. keptIn r ≡ certificateRead text.now) }
    ensures written { IfOk result (IsReadFrom text.now) }
{
    let entries = match sheets(alloc, text)? {
        Ok(entries) => entries,
        Err(fault) => return Ok(Err(fault)),
    };
    if certificate_text(alloc, &entries)?.as_slice() != text {
        return Ok(Err(Fault::Other));
    }
    Ok(Ok(entries))
}
