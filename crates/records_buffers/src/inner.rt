//! From the work buffer to the result buffer.
ghost use Rattle.std.specs.Prelude.{◌≡◌, List, ◌≤◌, length, replicate};
ghost use Rattle.rules.specs.Base.{Got};
ghost use Rattle.rules.specs.Writing.{Rec};
ghost use Rattle.records_buffers.specs.Told.{Made, handed, writtenAs};

use records::inner::copy;
use rules::Refusal;

/// Sets every word to 0.
pub fn clear(work: &mut [u32])
    ensures { work.new ≡ replicate (length work.old) 0 }
{
    work.fill(0);
}

/// Copies the records that were made, counted by `made`, to the front of the result buffer, if there are any, and leaves the work buffer all zero.
/// The answer is `made` itself.
pub fn hand_over(
    made: Result<usize, Refusal>,
    res: &mut [u32],
    work: &mut [u32],
) -> Result<usize, Refusal>
    requires made { (m : Got (List Rec)) × Made m work.old made }
    requires room { 8192 ≤ length res.old }
    ensures { (m : Got (List Rec)) → Made m work.old made → writtenAs result res.new work.new ≡ handed m res.old work.old }
{
    if let Ok(n) = made {
        copy(work, 0, n, res, 0);
    }
    clear(work);
    made
}
