// Room back in the name table: names that occur in no set are dropped, and the sets are renumbered.
#![tactic(auto)]

pub mod inner;
pub mod theorems;

ghost use Rattle.std.specs.Prelude.{◌≡◌};
ghost use Rattle.rules.specs.Refusals.{told};
ghost use Rattle.rules.specs.Compaction.{compactChecks, compactCall};
ghost use Rattle.compaction.specs.Told.{compactedAs};

use inner::{mark, renumber, sets_given, small, squeeze};
use names::inner::{count, is_good};
use names::tables::NameTable;
use rules::{NAMES, POOL_BYTES, Refusal, TABLE_WORDS};

// 10, 8 and 1, in this order.
fn check(pool: &[u8], table: &[u32], sets: &[u32], lengths: &[u32]) -> Result<(), Refusal>
    ensures { told result ≡ compactChecks pool.now table.now sets.now lengths.now }
{
    if pool.len() < POOL_BYTES || table.len() < TABLE_WORDS {
        return Err(Refusal::ShortBuffer);
    }
    if !small(lengths) {
        return Err(Refusal::TooLarge);
    }
    if !is_good(pool, table) {
        return Err(Refusal::Malformed);
    }
    let names = NameTable { pool, table };
    if sets_given(names, sets, lengths) {
        Ok(())
    } else {
        Err(Refusal::Malformed)
    }
}

/// The sets stand back to back in `sets`, each as long as `lengths` says in records. Exactly the names that they name are kept, in the old order: how many.
/// Pool, table and sets are changed in place; a number held elsewhere means nothing afterwards. Refuses with 10 (a short pool or table), 8 (over 64 sets, or
/// over 2,048 records in one), 1 (no name table, no set, or lengths that don't add up), and changes nothing then.
pub fn compact(
    pool: &mut [u8],
    table: &mut [u32],
    sets: &mut [u32],
    lengths: &[u32],
) -> Result<usize, Refusal>
    ensures { compactedAs result pool.new table.new sets.new ≡ compactCall pool.old table.old sets.old lengths.now }
{
    check(pool, table, sets, lengths)?;
    let mut marks = [false; NAMES];
    mark(sets, count(table) as usize, &mut marks);
    renumber(sets, &marks);
    Ok(squeeze(pool, table, &marks))
}
