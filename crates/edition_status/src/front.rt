// Room to read a sheet in.
ghost use Rattle.std.specs.Prelude.{◌≡◌, List, ℕ, length, IfOk, Some};
ghost use Rattle.edition_status.specs.Sheets.{IsSheetOf, noBytes};

use filling::fill_front;
use rules::Unseen;
use std::alloc::{AllocError, Global};
use std::io::Read;

/// A sheet has at most so many bytes.
const SHEET_BYTES: usize = 1_048_576;

/// Room for the bytes of a sheet, and for one that is too many.
#[derive(Drop)]
pub struct Front {
    pub bytes: Vec<u8>,
    ghost wide: { length bytes.items ≡ 1048577 },
}

impl Front {
    /// All zero.
    pub fn new(alloc: Global) -> Result<Front, AllocError>
        ensures { IfOk result (λ f. f.bytes.items ≡ noBytes) }
    {
        let bytes = vec![in alloc; 0u8; SHEET_BYTES + 1]?;
        Ok(Front { bytes })
    }

    /// The bytes of a reader up to its end, if they are a sheet's.
    pub fn read_sheet<R: Read>(
        &mut self,
        alloc: Global,
        reader: &mut R,
    ) -> Result<Result<Vec<u8>, Unseen>, AllocError>
        ensures { (bs : List ℕ) → R.remaining reader.old ≡ Some bs → IfOk result (IsSheetOf bs) }
    {
        let (n, read) = fill_front(reader, &mut self.bytes);
        if read.is_err() {
            return Ok(Err(Unseen::NotRead));
        }
        if SHEET_BYTES < n {
            return Ok(Err(Unseen::TooLong));
        }
        Ok(Ok(Vec::from_slice(alloc, &self.bytes[..n])?))
    }
}
