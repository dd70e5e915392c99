//! The calls on names.
ghost use Rattle.std.specs.Prelude.{◌≡◌, ◌+◌, ◌*◌, ◌≤◌, length};
ghost use Rattle.std.proofs.lemmas.List.Edits.{sets};
ghost use Rattle.calls_defined.specs.Dispatch.{shown, named, change, changesFrom, naming, entering, comparing};

use calls_defined::told::{Told, numbered, ordered, refused, said};
use calls_defined::words::{fill, fill_low, fill_words};
use names::{check_number, compare, enter, name_of};
use records::inner::put;

/// Names are looked at as far as this: a longer one is refused in any case.
const NAME: usize = 512;

/// What changed is told of the first bytes of a pool and the first words of a table: no program lends more.
const POOL: usize = 9216;

const TABLE: usize = 512;

/// The bytes of the name with this number, a word each, at the front of the result buffer.
pub fn named(pool: &[u8], table: &[u32], x: u32, res: &mut [u32]) -> Told
    ensures { shown result res.new ≡ naming pool.now table.now x res.old }
{
    let name = name_of(pool, table, x);
    fill_words(name, res);
    match check_number(pool, table, x) {
        Ok(()) => said(0, 0, name.len()),
        Err(why) => refused(why, 0, 0),
    }
}

/// How two names compare, a word for each byte.
pub fn compared(a: &[u32], b: &[u32]) -> Told
    ensures { result ≡ comparing a.now b.now }
{
    let mut left = [0u8; NAME];
    fill_low(a, &mut left);
    let mut right = [0u8; NAME];
    fill_low(b, &mut right);
    ordered(compare(&left[..a.len().min(NAME)], &right[..b.len().min(NAME)]))
}

// Puts a place and its new value at the place `next`, where it is not as it was; where the next goes.
fn put_change(out: &mut [u32], next: usize, i: usize, before: u32, after: u32) -> usize
    requires near { (next ≤ 1000000) × (i ≤ 1000000) }
    ensures written { out.new ≡ sets out.old next (change i before after) }
    ensures past { result ≡ next + length (change i before after) }
{
    if before == after {
        return next;
    }
    put(out, next, i as u32);
    put(out, next + 1, after);
    next + 2
}

// The places where two lists differ, and what stands there in the second, from a place of the result buffer on; where the next goes.
fn put_changes(before: &[u32], after: &[u32], from: usize, res: &mut [u32]) -> usize
    requires same_length { length before.now ≡ length after.now }
    requires short { length after.now ≤ 9216 }
    requires near { from ≤ 18433 }
    ensures written { res.new ≡ sets res.old from (changesFrom before.now after.now 0 (length after.now)) }
    ensures past { result ≡ from + length (changesFrom before.now after.now 0 (length after.now)) }
    ensures few { result ≤ from + 2 * length after.now }
{
    let mut next = from;
    for i in 0..after.len() {
        next = put_change(res, next, i, before[i], after[i]);
    }
    next
}

/// Enters a name, a word for each byte. The answer is its number; the result buffer begins with what that changed: places of the pool and their
/// bytes now, a word of ones, places of the table and their words now. The first 9,216 bytes of the pool and the first 512 words of the table are
/// looked at.
pub fn entered(pool: &mut [u8], table: &mut [u32], b: &[u32], res: &mut [u32]) -> Told
    ensures { named result pool.new table.new res.new ≡ entering pool.old table.old b.now res.old }
{
    let mut name = [0u8; NAME];
    fill_low(b, &mut name);
    let bytes = pool.len().min(POOL);
    let mut pool_before = [0u32; POOL];
    fill_words(&pool[..bytes], &mut pool_before);
    let words = table.len().min(TABLE);
    let mut table_before = [0u32; TABLE];
    fill(&table[..words], &mut table_before);
    let answer = enter(pool, table, &name[..b.len().min(NAME)]);
    let mut pool_after = [0u32; POOL];
    fill_words(&pool[..bytes], &mut pool_after);
    let next = put_changes(&pool_before[..bytes], &pool_after[..bytes], 0, res);
    put(res, next, u32::MAX);
    let count = put_changes(&table_before[..words], &table[..words], next + 1, res);
    numbered(answer, count)
}
