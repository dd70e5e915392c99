//! Generalising past the check of 10; what it makes is left at the start of the work buffer.
ghost use Rattle.std.specs.Prelude.{◌≤◌, [], length};
ghost use Rattle.rules.specs.Calls.{generalised};
ghost use Rattle.rules.specs.Schemes.{concrete};
ghost use Rattle.records_buffers.specs.Told.{Made};
ghost use Rattle.schemes.specs.Entry.{short, called_over};
ghost use Rattle.schemes.specs.Generalising.{Ready, generalisedFrom};

use super::checks::{check_lengths, check_unmixed};
use names::tables::NameTable;
use queries::Kind;
use queries::inner::list_names;
use records::inner::copy;
use rules::{NAMES, Refusal};
use schemes_handed::{Bounds, Handed, Scheme};
use schemes_quantify::inner::quantifying::quantify_at;
use types::Type;

/// A concrete type with its names, sorted, quantified; bounds of other names are left out.
fn generalise_type(
    names: NameTable,
    t: Type,
    bounds: Bounds,
    work: &mut [u32],
) -> Result<usize, Refusal>
    requires ready { Ready names.pool.now names.table.now t.tree.0 bounds.listed.0 }
    requires work_room { 16384 ≤ length work.old }
    ensures { Made (generalisedFrom names.entry.pool.now names.entry.table.now (concrete t.entry.tree.0) bounds.entry.listed.0) work.new result }
{
    let mut sorted = [0u32; NAMES];
    let k = list_names(names, t.words, t.at, t.end(), Kind::Both, &mut sorted);
    let handed = Handed {
        names,
        numbers: &sorted[..k],
    };
    quantify_at(handed, t, bounds, false, work)
}

/// A concrete type with bounds generalised, or another scheme as it stands; no numbers are handed.
pub fn make_generalised(
    names: Result<NameTable, Refusal>,
    given: &[u32],
    bounds: &[u32],
    work: &mut [u32],
) -> Result<usize, Refusal>
    requires { 16384 ≤ length work.old }
    ensures { Made (called_over names.entry (short given.now bounds.now []) (λ t. generalised t given.now bounds.now)) work.new result }
{
    check_lengths(given, bounds, &[])?;
    let names = names?;
    let scheme = Scheme::new(names, given)?;
    let bounds = Bounds::new(names, bounds)?;
    check_unmixed(given)?;
    match scheme {
        Scheme::Concrete(t) => generalise_type(names, t, bounds, work),
        Scheme::Quantified(_, _, _) => {
            let n = given.len() / 4;
            copy(given, 0, n, work, 0);
            Ok(n)
        }
    }
}
