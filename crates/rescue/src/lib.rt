// Rescue of damaged set files: what is well formed is kept, and each place that is skipped is named.
#![tactic(auto)]

pub mod inner;
pub mod theorems;

ghost use Rattle.std.specs.Prelude.{◌≡◌};
ghost use Rattle.rules.specs.Rescue.{rescueCall};
ghost use Rattle.rescue.specs.Told.{rescuedAs};

use inner::{given, take_words};
use names::tables::NameTable;
use rules::Refusal;

/// How many records are kept, and how many places skipped.
#[derive(Clone, Copy, PartialEq, Eq)]
pub struct Counts {
    pub kept: usize,
    pub skipped: usize,
}

/// The well formed constraints of a file go to the front of `kept`, and the place of each other record to the front of `skipped`; behind these both are as
/// before. At least 32,768 bytes and 2,049 places are lent. Refuses with 10 (a short buffer), 8 (over 2,048 records), 1 (no name table), and changes
/// nothing then.
pub fn rescue(
    pool: &[u8],
    table: &[u32],
    file: &[u8],
    kept: &mut [u8],
    skipped: &mut [u32],
) -> Result<Counts, Refusal>
    ensures { rescuedAs result kept.new skipped.new ≡ rescueCall pool.now table.now file.now kept.old skipped.old }
{
    given(pool, table, file, kept.len(), skipped.len())?;
    let names = NameTable { pool, table };
    Ok(take_words(names, file, kept, skipped))
}
