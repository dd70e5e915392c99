//! The calls on names.
ghost use Rattle.std.specs.Prelude.{◌≡◌};
ghost use Rattle.rules.specs.Names.{orderBytes, tableGiven, nameAsked, partAsked};
ghost use Rattle.rules.specs.Names as rules;
ghost use Rattle.rules.specs.Numbers.{refusalIn};
ghost use Rattle.shupkelen.specs.Exports.{out, orderWord, placeOut, enteredOut};

use calls_defined::told::{numbered, ordered};
use library_words::placing::placed;
use library_words::{hand, number};
use names::{check_number, check_table, compare, enter};

/// The order of two names by their bytes, first to last, a prefix before what it begins: returns 1 for less, 2 for same, 3 for more.
#[unsafe(no_mangle)]
pub extern "C" fn shupkelen_compare(first: &[u8], second: &[u8]) -> u32
    ensures { result ≡ orderWord (orderBytes first.now second.now) }
{
    let t = ordered(compare(first, second));
    t.value
}

/// Is it a name table: ends in the pool that rise, names of 1 to 48 bytes, no name twice? Refuses with 10 (a short pool or table) and 1; 0 says yes.
#[unsafe(no_mangle)]
pub extern "C" fn shupkelen_check_table(pool: &[u8], table: &[u32]) -> u32
    ensures { result ≡ refusalIn (tableGiven pool.now table.now) }
{
    number(check_table(pool, table))
}

/// Has a name this number? Refuses with 10, 1 and 3 (none has); 0 says yes.
#[unsafe(no_mangle)]
pub extern "C" fn shupkelen_check_number(pool: &[u8], table: &[u32], name: u32) -> u32
    ensures { result ≡ refusalIn (nameAsked pool.now table.now name) }
{
    number(check_number(pool, table, name))
}

/// Where the name with this number stands in the pool: says its first byte, and how many bytes. Refuses with 10, 1 and 3.
#[unsafe(no_mangle)]
pub extern "C" fn shupkelen_name_of(
    pool: &[u8],
    table: &[u32],
    name: u32,
    answer: &mut [u32],
) -> u32
    ensures { out result answer.new tt ≡ placeOut (nameAsked pool.now table.now name) (partAsked pool.now table.now name) answer.old }
{
    hand(placed(pool, table, name), answer)
}

/// Enters a name: says its number, and 1 where it is new, 0 where it was known. Refuses with 10, 1, 2 (no byte, or over 48) and 3 (no room), and changes
/// neither pool nor table then.
#[unsafe(no_mangle)]
pub extern "C" fn shupkelen_enter(
    pool: &mut [u8],
    table: &mut [u32],
    name: &[u8],
    answer: &mut [u32],
) -> u32
    ensures { out result answer.new (pool.new, table.new) ≡ enteredOut (rules.enter pool.old table.old name.now) answer.old }
{
    hand(numbered(enter(pool, table, name), 0), answer)
}
