//! All that instantiating does past the check of 10; what it makes is left at the start of the work buffer.
ghost use Rattle.std.specs.Prelude.{◌≤◌, [], length};
ghost use Rattle.rules.specs.Calls.{instantiated};
ghost use Rattle.records_buffers.specs.Told.{Made};
ghost use Rattle.schemes.specs.Entry.{short, called_over};

use super::checks::{check_lengths, check_unmixed};
use names::tables::NameTable;
use rules::Refusal;
use schemes_handed::{Handed, Scheme};
use schemes_instantiate::inner::instantiating::instantiate_scheme;

/// The type and bounds of a scheme with handed names put back; no bounds are given.
pub fn make_instantiated(
    names: Result<NameTable, Refusal>,
    given: &[u32],
    numbers: &[u32],
    work: &mut [u32],
) -> Result<usize, Refusal>
    requires { 16384 ≤ length work.old }
    ensures { Made (called_over names.entry (short given.now [] numbers.now) (λ t. instantiated t given.now numbers.now)) work.new result }
{
    check_lengths(given, &[], numbers)?;
    let names = names?;
    let scheme = Scheme::new(names, given)?;
    let handed = Handed::new(names, numbers)?;
    check_unmixed(given)?;
    instantiate_scheme(handed, scheme, work)
}
