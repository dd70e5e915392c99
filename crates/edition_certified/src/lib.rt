//! The file of a sheet, and what a certificate keeps of it: the digest that the file must have, and lines that say what the sheet's variables stand for.
//! Whether the lines make each constraint true is judged with nothing solved, from the bytes of both on.
#![tactic(auto)]

pub mod inner;

ghost use Rattle.std.specs.Prelude.{◌≡◌, ◌↔◌, IsTrue, IfOk};
ghost use Rattle.sha2.specs.Sha256.{sha256};
ghost use Rattle.edition_certified.specs.Certified.{said, certified};
ghost use Rattle.edition_certified.specs.Truth.{VerifiedIsTrue};

use inner::judge_text;
use rules::Refusal;
use sha2::{Digest, Sha256};
use std::alloc::{AllocError, Global};
use text_sheet::NotRead;

/// What a certificate is worth to the file of a sheet.
#[derive(Clone, Copy)]
pub enum Verdict {
    /// The file has the digest, and under the lines each of its constraints is true.
    Verified,
    /// It has another digest.
    Changed,
    /// It isn't read as a sheet.
    Unread(NotRead),
    /// The certificate's lines aren't read, over the names of the sheet.
    LinesUnread(NotRead),
    /// One of its constraints isn't true under the lines.
    Untrue,
    /// The lines are refused: 12 where one is neither `?x ~ type` nor `?x: DType`, 1 where they bind a variable twice or bound names don't rise by their
    /// bytes, 4, 7, 8 as by the judge.
    Refused(Refusal),
}

// Is this the digest of a file?
fn has_digest(text: &[u8], digest: &[u8; 32]) -> bool
    ensures { IsTrue result ↔ (sha256 text.now ≡ digest.now) }
{
    let found = Sha256::digest(text);
    found.as_slice() == digest.as_slice()
}

/// What is a certificate worth to the file of a sheet? It has the digest that the file must have, and lines `?x ~ type` and `?x: DType`. File and lines are
/// read one after the other over one table of names, which begins without any; then the lines are put in at once, and each constraint of the sheet
/// is judged in exact arithmetic. Yes is said only where all are true.
pub fn certify(
    alloc: Global,
    digest: &[u8; 32],
    text: &[u8],
    lines: &[u8],
) -> Result<Verdict, AllocError>
    ensures answer { IfOk result (λ v. said v ≡ certified digest.now text.now lines.now) }
    ensures truth { IfOk result (VerifiedIsTrue digest.now text.now lines.now) }
{
    if !has_digest(text, digest) {
        return Ok(Verdict::Changed);
    }
    judge_text(alloc, text, lines)
}
