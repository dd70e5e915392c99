//! Where a name stands in the pool.
ghost use Rattle.std.specs.Prelude.{◌≡◌};
ghost use Rattle.rules.specs.Names.{nameAsked, partAsked};
ghost use Rattle.library_words.specs.Words.{placeAs};

use calls_defined::told::{Told, refused, said, short};
use names::inner::start_of;
use names::{check_number, name_of};

/// Where the name with this number stands in the pool: its first byte, and how many; 10, 1 or 3 where there is no such name.
pub fn placed(pool: &[u8], table: &[u32], number: u32) -> Told
    ensures { result ≡ placeAs (nameAsked pool.now table.now number) (partAsked pool.now table.now number) }
{
    let name = name_of(pool, table, number);
    match check_number(pool, table, number) {
        Ok(()) => said(start_of(table, number as usize), short(name.len()), 0),
        Err(why) => refused(why, 0, 0),
    }
}
