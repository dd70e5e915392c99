//! All that quantifying does past the check of 10; what it makes is left at the start of the work buffer.
ghost use Rattle.std.specs.Prelude.{◌≤◌, length};
ghost use Rattle.rules.specs.Calls.{quantified};
ghost use Rattle.records_buffers.specs.Told.{Made};
ghost use Rattle.schemes.specs.Entry.{short, called_over};

use super::checks::{check_lengths, check_unmixed};
use names::tables::NameTable;
use rules::Refusal;
use schemes_handed::{Bounds, Handed};
use schemes_quantify::inner::quantifying::quantify_at;
use types::GivenType;

/// A type and bounds with handed names quantified.
pub fn make_quantified(
    names: Result<NameTable, Refusal>,
    words: &[u32],
    bounds: &[u32],
    numbers: &[u32],
    work: &mut [u32],
) -> Result<usize, Refusal>
    requires { 16384 ≤ length work.old }
    ensures { Made (called_over names.entry (short words.now bounds.now numbers.now) (λ t. quantified t words.now bounds.now numbers.now)) work.new result }
{
    check_lengths(words, bounds, numbers)?;
    let names = names?;
    let given = GivenType::new(Ok(names), words)?;
    let bounds = Bounds::new(names, bounds)?;
    let handed = Handed::new(names, numbers)?;
    check_unmixed(words)?;
    quantify_at(handed, given.whole, bounds, true, work)
}
