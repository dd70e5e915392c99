// The work on a pool and a table that were tested before.
ghost use Rattle.std.specs.Prelude.{◌≡◌, ◌&&◌, ◌++◌, ◌+◌, ◌≤◌, ◌<◌, leb, ltb, length, get_or, drop};
ghost use Rattle.std.proofs.Math.Option.{none};
ghost use Rattle.rules.specs.Names.{table_of, names_of, number_of, sameBytes, lengthsGood, distinct, tableGood, hasRoom, enterKnown, enterChecked};
ghost use Rattle.laws.specs.NameTable.{start_at, endsOf, Laid, Good};
ghost use Rattle.rules.specs.Base.{need, any};
ghost use Rattle.names.specs.Digests.{withByte, digestOf, nameIn, Digests};
ghost use Rattle.rules.specs.Refusals.{toldOption};
ghost use Rattle.names.specs.Told.{IsPart, heldPart, entered};

use super::compare;
use rules::{NAME_BYTES, NAMES, POOL_BYTES, Refusal, Was};
use std::cmp::Ordering;

/// How many names are held.
pub fn count(table: &[u32]) -> u32
    requires { 257 ≤ length table.now }
    ensures { result ≡ get_or table.now 0 0 }
{
    table[0]
}

/// Whether a name has this number.
pub fn is_held(table: &[u32], i: u32) -> bool
    requires { 257 ≤ length table.now }
    ensures { result ≡ ltb i (get_or table.now 0 0) }
{
    i < table[0]
}

/// A word of a table; 0 past its end.
pub fn word_at(table: &[u32], i: usize) -> u32
    ensures { result ≡ get_or table.now i 0 }
{
    if i < table.len() { table[i] } else { 0 }
}

/// Where the name with the number k starts: at the end of the one before.
pub fn start_of(table: &[u32], k: usize) -> u32
    ensures { result ≡ start_at table.now k }
{
    if k == 0 { 0 } else { word_at(table, k) }
}

/// The name with the number k: that part of the pool itself.
pub fn name_at<'a, 'b>(pool: &'a [u8], table: &'b [u32], k: usize) -> &'a [u8]
    requires laid { Laid pool.now table.now }
    requires held { k < get_or table.now 0 0 }
    ensures { IsPart pool.entry result (heldPart pool.now table.now k) }
{
    let start = start_of(table, k) as usize;
    let end = table[k + 1] as usize;
    &pool[start..end]
}

// Do the ends rise within the pool, each 1 to 48 bytes after the one before?
fn lengths_good(table: &[u32]) -> bool
    requires long { 257 ≤ length table.now }
    requires few { get_or table.now 0 0 ≤ 256 }
    ensures { result ≡ lengthsGood 0 (endsOf table.now) }
{
    let n = table[0] as usize;
    let mut at = 0;
    for k in 0..n {
        let end = table[k + 1] as usize;
        if end <= at || NAME_BYTES < end - at {
            return false;
        }
        at = end;
    }
    at <= POOL_BYTES
}

// The number of a name among those from a number on: it is compared with each held name's part of the pool.
fn search(pool: &[u8], table: &[u32], from: usize, name: &[u8]) -> Option<u32>
    requires laid { Laid pool.now table.now }
    requires within { from ≤ get_or table.now 0 0 }
    ensures { toldOption result ≡ number_of from name.now (drop from (names_of (table_of pool.now table.now))) }
{
    let n = table[0] as usize;
    let mut start = start_of(table, from) as usize;
    for k in from..n {
        let end = table[k + 1] as usize;
        match compare(name, &pool[start..end]) {
            Ordering::Equal => return Some(k as u32),
            Ordering::Less | Ordering::Greater => start = end,
        }
    }
    None
}

// A digest with one byte more.
fn with_byte(d: u64, b: u8) -> u64
    requires { d < 4294967296 }
    ensures { (result ≡ withByte d b) × (result < 4294967296) }
{
    (d * 257 + u64::from(b)) % 4294967296
}

// A number that equal names share: names with different ones needn't be compared.
fn digest(name: &[u8]) -> u32
    ensures { result ≡ digestOf name.now }
{
    let mut d: u64 = 0;
    for b in name {
        d = with_byte(d, *b);
    }
    d as u32
}

// The digests of all names, by their numbers.
fn put_digests(pool: &[u8], table: &[u32], digests: &mut [u32])
    requires laid { Laid pool.now table.now }
    requires room { 256 ≤ length digests.old }
    ensures { Digests pool.now table.now digests.new (get_or table.now 0 0) }
{
    let n = table[0] as usize;
    for k in 0..n {
        digests[k] = digest(name_at(pool, table, k));
    }
}

// Are the names of two numbers the same, byte by byte?
fn same_names(pool: &[u8], table: &[u32], i: usize, j: usize) -> bool
    requires laid { Laid pool.now table.now }
    requires held { i < get_or table.now 0 0 }
    requires other { j < get_or table.now 0 0 }
    ensures { result ≡ sameBytes (nameIn pool.now table.now i) (nameIn pool.now table.now j) }
{
    match compare(name_at(pool, table, i), name_at(pool, table, j)) {
        Ordering::Equal => true,
        Ordering::Less | Ordering::Greater => false,
    }
}

// Do two numbers have the same name? Their digests, if they differ, say no.
fn same_held(pool: &[u8], table: &[u32], digests: &[u32], i: usize, j: usize) -> bool
    requires laid { Laid pool.now table.now }
    requires digests { Digests pool.now table.now digests.now (get_or table.now 0 0) }
    requires held { i < get_or table.now 0 0 }
    requires other { j < get_or table.now 0 0 }
    ensures { result ≡ sameBytes (nameIn pool.now table.now i) (nameIn pool.now table.now j) }
{
    digests[i] == digests[j] && same_names(pool, table, i, j)
}

// Has a later number the name with the number k?
fn held_again(pool: &[u8], table: &[u32], digests: &[u32], k: usize) -> bool
    requires laid { Laid pool.now table.now }
    requires digests { Digests pool.now table.now digests.now (get_or table.now 0 0) }
    requires held { k < get_or table.now 0 0 }
    ensures { result ≡ any (sameBytes (nameIn pool.now table.now k)) (drop (k + 1) (names_of (table_of pool.now table.now))) }
{
    let n = table[0] as usize;
    for j in k + 1..n {
        if same_held(pool, table, digests, k, j) {
            return true;
        }
    }
    false
}

// Is no name held twice? By their digests.
fn none_again(pool: &[u8], table: &[u32], digests: &[u32]) -> bool
    requires laid { Laid pool.now table.now }
    requires digests { Digests pool.now table.now digests.now (get_or table.now 0 0) }
    ensures { result ≡ distinct (names_of (table_of pool.now table.now)) }
{
    let n = table[0] as usize;
    for k in 0..n {
        if held_again(pool, table, digests, k) {
            return false;
        }
    }
    true
}

// Is no name held twice?
fn all_distinct(pool: &[u8], table: &[u32]) -> bool
    requires { Laid pool.now table.now }
    ensures { result ≡ distinct (names_of (table_of pool.now table.now)) }
{
    let mut digests = [0u32; NAMES];
    put_digests(pool, table, &mut digests);
    none_again(pool, table, &digests)
}

/// Is the table well formed?
pub fn is_good(pool: &[u8], table: &[u32]) -> bool
    requires pool_long { 8192 ≤ length pool.now }
    requires table_long { 257 ≤ length table.now }
    ensures { result ≡ tableGood (table_of pool.now table.now) }
{
    if NAMES < table[0] as usize || !lengths_good(table) {
        return false;
    }
    all_distinct(pool, table)
}

// The bytes of src, at the front of dst.
fn copy(dst: &mut [u8], src: &[u8])
    requires { length src.now ≤ length dst.old }
    ensures { dst.new ≡ src.now ++ drop (length src.now) dst.old }
{
    dst[..src.len()].copy_from_slice(src);
}

// A name that is not held: it is copied in at the first free pool byte and gets the next number, or is refused.
fn enter_new(pool: &mut [u8], table: &mut [u32], name: &[u8]) -> Result<(u32, Was), Refusal>
    requires { Good pool.old table.old }
    ensures { entered result pool.new table.new ≡ enterKnown none (hasRoom (table_of pool.old table.old) name.now) pool.old table.old name.now }
{
    let n = table[0];
    let k = n as usize;
    if NAMES <= k {
        return Err(Refusal::NoRoom); // no number is left
    }
    let free = start_of(table, k) as usize;
    if POOL_BYTES - free < name.len() {
        return Err(Refusal::NoRoom); // too few bytes are left
    }
    copy(&mut pool[free..], name);
    table[0] = n + 1;
    table[k + 1] = (free + name.len()) as u32;
    Ok((n, Was::New))
}

/// A name is entered into a table that is well formed.
pub fn enter_good(pool: &mut [u8], table: &mut [u32], name: &[u8]) -> Result<(u32, Was), Refusal>
    requires { Good pool.old table.old }
    ensures { entered result pool.new table.new ≡ enterChecked (need (leb 1 (length name.now) && leb (length name.now) 48) 2) pool.old table.old name.now }
{
    if name.is_empty() || NAME_BYTES < name.len() {
        return Err(Refusal::NameLength);
    }
    match search(pool, table, 0, name) {
        Some(i) => Ok((i, Was::Known)),
        None => enter_new(pool, table, name),
    }
}
