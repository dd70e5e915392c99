// What a request lends.
ghost use Rattle.std.specs.Prelude.{◌≡◌, take, drop, replicate, IfOk, OnOk};
ghost use Rattle.serve_replies.specs.Bytes.{words_in};
ghost use Rattle.serve_replies.specs.Requests.{padded, leastOf, lendingOf, lent_as};

use crate::coding::words_from;
use crate::request::{Header, filled};
use rules::{POOL_BYTES, TABLE_WORDS};
use std::alloc::{AllocError, Global};

/// What is lent to a call: a name table, four lists, and the two buffers that it writes to.
#[derive(Drop)]
pub struct Lent {
    pub pool: Vec<u8>,
    pub table: Vec<u32>,
    pub a: Vec<u32>,
    pub b: Vec<u32>,
    pub c: Vec<u32>,
    pub d: Vec<u32>,
    pub result: Vec<u32>,
    pub work: Vec<u32>,
}

// The bytes before a place.
fn front(s: &[u8], n: usize) -> &[u8]
    ensures { result.now ≡ take n s.now }
{
    s.get(..n).unwrap_or(s)
}

// Fills up a list to a length.
fn pad<T: Copy>(list: &mut Vec<T>, n: usize, value: T) -> Result<(), AllocError>
    ensures { OnOk result (list.new.items ≡ padded list.old.items n value) }
{
    list.resize(list.len().max(n), value)
}

// The length that a list of a name table has at the least: a whole one's, where the request asks for that.
fn least(h: Header, whole: usize) -> usize
    ensures { result ≡ leastOf h whole }
{
    if h.whole == 0 { 0 } else { whole }
}

// The bytes of the pool. Where a request asks for a whole name table, zeros fill up what was sent.
fn pool_of(alloc: Global, h: Header, body: &[u8]) -> Result<Vec<u8>, AllocError>
    ensures { IfOk result (λ v. v.items ≡ padded (take h.pool body.now) (leastOf h 8192) 0) }
{
    let mut pool = Vec::new(alloc);
    pool.extend_from_slice(front(body, h.pool as usize))?;
    pad(&mut pool, least(h, POOL_BYTES), 0)?;
    Ok(pool)
}

// The words of the table, which begin at a place; filled up likewise.
fn table_of(alloc: Global, h: Header, body: &[u8], at: usize) -> Result<Vec<u32>, AllocError>
    ensures { IfOk result (λ v. v.items ≡ padded (words_in (drop at body.now) h.table) (leastOf h 257) 0) }
{
    let mut table = words_from(alloc, body, at, h.table)?;
    pad(&mut table, least(h, TABLE_WORDS), 0)?;
    Ok(table)
}

// So many words alike.
fn alike(alloc: Global, word: u32, n: u32) -> Result<Vec<u32>, AllocError>
    ensures { IfOk result (λ v. v.items ≡ replicate n word) }
{
    vec![in alloc; word; n as usize]
}

impl Lent {
    /// As a request has it.
    pub fn new(alloc: Global, h: Header, body: &[u8]) -> Result<Lent, AllocError>
        ensures { IfOk result (λ l. lent_as l ≡ lendingOf h body.now) }
    {
        let table = filled(h.pool);
        let a = table + h.table as usize * 4;
        let b = a + h.a as usize * 4;
        let c = b + h.b as usize * 4;
        let d = c + h.c as usize * 4;
        Ok(Lent {
            pool: pool_of(alloc, h, body)?,
            table: table_of(alloc, h, body, table)?,
            a: words_from(alloc, body, a, h.a)?,
            b: words_from(alloc, body, b, h.b)?,
            c: words_from(alloc, body, c, h.c)?,
            d: words_from(alloc, body, d, h.d)?,
            result: alike(alloc, h.result_was, h.result)?,
            work: alike(alloc, h.work_was, h.work)?,
        })
    }
}
