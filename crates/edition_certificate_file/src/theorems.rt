//! What a certificate's file is worth as a form: theorems, each the contract of a function that does nothing, and what is read of what was written.
//! `certificate_text` writes `keptsText`, and `read_certificate` reads what `certificateRead` says.
ghost use Rattle.std.specs.Prelude.{◌≡◌, Ok, true, IfOk, map};
ghost use Rattle.hex.specs.Hex.{IsBytes};
ghost use Rattle.edition_certificate_file.specs.Files.{keptOf, certificateText};
ghost use Rattle.edition_certificate_file.specs.Reading.{keptIn, certificateRead};
ghost use Rattle.edition_certificate_file.specs.Theorems.{OnlyWrittenIsRead, WrittenIsRead};
ghost use Rattle.edition_certificate_file.specs.Writable.{allWritable, isIndented, onOneLine, writable};

use crate::{Entry, Fault, certificate_text, read_certificate};
use std::alloc::{AllocError, Global};

/// What is written of sheets is read back to the same sheets, where each has a name on one line, a digest of 32 bytes, and lines that begin with two blanks
/// and end with a line feed, and no two have one name (`allWritable`); so a text is that of one list of sheets at the most. A name that `written_name` made
/// stands on one line, whatever bytes it was made of, and lines that were put behind two blanks are such lines. Of two sheets with one name the line that
/// names the second is refused, whatever stands behind it (`read-back`, `one-list`, `written-on-line`, `lines-indented`, `named-twice`).
pub fn written_is_read_back()
    ensures { WrittenIsRead }
{}

/// What is read of a text is writable, and the text is what it is written as, byte by byte: no two sheets that are read have one name. So sheets that aren't
/// writable are never what is read of their text (`read-written`).
pub fn only_written_is_read()
    ensures { OnlyWrittenIsRead }
{}

// The elements of a slice of bytes are below 256: a proof knows it of a slice that the body reads.
fn are_bytes(bytes: &[u8])
    ensures { IsBytes bytes.now }
{
    let _count = bytes.len();
}

/// What is kept of a sheet is writable where its name stands on one line and its lines begin with two blanks: a digest always has 32 bytes.
pub fn kept_is_writable(entry: &Entry)
    ensures { onOneLine entry.now.name.items ≡ true → isIndented entry.now.lines.items ≡ true → writable (keptOf entry.now) ≡ true }
{
    are_bytes(&entry.digest);
}

/// Writes what is kept of sheets, and reads it again. Whatever it is, the answer is what `certificateRead` says of its text (`is`): the same sheets where they
/// are writable (`back`), and only there (`only`).
pub fn written_and_read(
    alloc: Global,
    entries: &[Entry],
) -> Result<Result<Vec<Entry>, Fault>, AllocError>
    ensures answer { IfOk result (λ r. keptIn r ≡ certificateRead (certificateText entries.now)) }
    ensures back { IfOk result (λ r. allWritable (map keptOf entries.now) ≡ true → keptIn r ≡ Ok (map keptOf entries.now)) }
    ensures only { IfOk result (λ r. keptIn r ≡ Ok (map keptOf entries.now) → allWritable (map keptOf entries.now) ≡ true) }
{
    let text = certificate_text(alloc, entries)?;
    read_certificate(alloc, &text)
}
