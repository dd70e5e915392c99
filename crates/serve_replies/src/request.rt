// The head of a request, and whether it is one.
ghost use Rattle.std.specs.Prelude.{◌≡◌, ◌≤◌, Some};
ghost use Rattle.serve_replies.specs.Requests.{head_of, overBy, roomOf, excessOf, filledTo, parts_of, faultNumber, servedAs, requestOf};

use crate::coding::word_at;
use calls_defined::numbers::Call;

/// The bytes of a head.
pub const HEAD: usize = 64;

/// What can be wrong with a request.
#[derive(Clone, Copy)]
pub enum Fault {
    /// The input ended, or a read failed, within it.
    Torn,
    /// No call has its number.
    Unknown,
    /// A length is over its room.
    TooLong,
    /// Its body isn't as long as its parts.
    Untrue,
}

impl Fault {
    /// The number that docs/SERVE.md has for it.
    pub fn number(self) -> u32
        ensures { result ≡ faultNumber self }
    {
        match self {
            Fault::Torn => 1,
            Fault::Unknown => 2,
            Fault::TooLong => 3,
            Fault::Untrue => 4,
        }
    }
}

/// The words of a head, in their order.
#[derive(Clone, Copy)]
pub struct Header {
    pub body: u32,
    pub call: u32,
    pub x: u32,
    pub y: u32,
    pub result_was: u32,
    pub result: u32,
    pub work_was: u32,
    pub work: u32,
    pub pool: u32,
    pub table: u32,
    pub a: u32,
    pub b: u32,
    pub show: u32,
    pub c: u32,
    pub d: u32,
    pub whole: u32,
}

/// The head of a request.
pub fn header_from(s: &[u8]) -> Header
    ensures { result ≡ head_of s.now }
{
    Header {
        body: word_at(s, 0),
        call: word_at(s, 4),
        x: word_at(s, 8),
        y: word_at(s, 12),
        result_was: word_at(s, 16),
        result: word_at(s, 20),
        work_was: word_at(s, 24),
        work: word_at(s, 28),
        pool: word_at(s, 32),
        table: word_at(s, 36),
        a: word_at(s, 40),
        b: word_at(s, 44),
        show: word_at(s, 48),
        c: word_at(s, 52),
        d: word_at(s, 56),
        whole: word_at(s, 60),
    }
}

// 1 where a length is over its room.
#[tactic(auto, using(laws::proofs::Numbers::yes_counts, laws::proofs::Numbers::yes_at_most))]
fn over(n: u32, most: u32) -> u32
    ensures { (result ≡ overBy n most) × (result ≤ 1) }
{
    u32::from(most < n)
}

// The same of a result buffer: a large one is not shown whole.
fn over_result(n: u32, show: u32) -> u32
    ensures { (result ≡ overBy n (roomOf show)) × (result ≤ 1) }
{
    if show == 0 {
        over(n, 533504)
    } else {
        over(n, 9216)
    }
}

// How many words of a head are over their room. The words show and whole are no or yes.
fn excess(h: Header) -> u32
    ensures { result ≡ excessOf h }
{
    let buffers = over_result(h.result, h.show)
        + over(h.work, 20480)
        + over(h.pool, 9216)
        + over(h.table, 512);
    let lists = over(h.a, 10240) + over(h.b, 10240) + over(h.c, 10240) + over(h.d, 10240);
    buffers + lists + over(h.body, 98304) + over(h.show, 1) + over(h.whole, 1)
}

/// The bytes of the pool with those that fill up its last word.
pub fn filled(n: u32) -> usize
    ensures { result ≡ filledTo n }
{
    (n as usize + 3) / 4 * 4
}

// How many bytes the parts of the body have together.
fn parts(h: Header) -> usize
    ensures { result ≡ parts_of h }
{
    filled(h.pool)
        + (h.table as usize + h.a as usize + h.b as usize + h.c as usize + h.d as usize) * 4
}

// Has the request of a call room, and a body as long as its parts?
fn fitting(h: Header, call: Call) -> Result<Call, Fault>
    ensures { result ≡ servedAs h (Some call) }
{
    if 0 < excess(h) {
        return Err(Fault::TooLong);
    }
    if h.body as usize == parts(h) {
        Ok(call)
    } else {
        Err(Fault::Untrue)
    }
}

/// The call that a request is for, or the first thing that is wrong with it.
pub fn call_of(h: Header) -> Result<Call, Fault>
    ensures { result ≡ requestOf h }
{
    match Call::from_number(h.call) {
        None => Err(Fault::Unknown),
        Some(call) => fitting(h, call),
    }
}
