//! Serves requests from standard input: one public call each, on what is lent in the request; the answer goes to standard output.
//! docs/SERVE.md has the form of requests and answers.
#![tactic(auto)]

use calls_defined::numbers::Call;
use filling::fill_front;
use serve_replies::reply::{fault_reply, reply};
use serve_replies::request::{Fault, HEAD, Header, call_of, header_from};
use std::alloc::Global;
use std::io;
use std::io::{Read, Write};

/// At most this many requests are served: a loop has to end.
const REQUESTS: u64 = 1000000000000;

/// What is dropped at a time of a request that can't be served.
const BLOCK: usize = 4096;

/// What stopped a read before its last byte: `Ok` where the input ended.
type Short = io::Result<()>;

/// Fills a buffer, or says what stopped it.
fn read_whole(from: &mut impl Read, buf: &mut [u8]) -> Result<(), Short> {
    let (got, read) = fill_front(from, buf);
    if got == buf.len() { Ok(()) } else { Err(read) }
}

/// Says that this was no request.
fn say_fault(alloc: Global, to: &mut impl Write, fault: Fault) -> io::Result<()> {
    to.write_all(&fault_reply(alloc, fault)?)
}

/// Says that the request is torn. Nothing is to come, and a read that failed is handed on.
fn say_torn(alloc: Global, to: &mut impl Write, short: Short) -> io::Result<bool> {
    say_fault(alloc, to, Fault::Torn)?;
    short?;
    Ok(false)
}

/// Reads a request's body, and writes the answer. Is there more to come?
fn serve_body<R: Read, W: Write>(
    alloc: Global,
    from: &mut R,
    to: &mut W,
    call: Call,
    h: Header,
) -> io::Result<bool> {
    let mut body = vec![in alloc; 0u8; h.body as usize]?;
    if let Err(short) = read_whole(from, &mut body) {
        return say_torn(alloc, to, short);
    }
    to.write_all(&reply(alloc, call, h, &body)?)?;
    Ok(true)
}

/// Reads past n bytes.
fn skip(from: &mut impl Read, n: usize) -> Result<(), Short> {
    let mut block = [0u8; BLOCK];
    for _ in 0..n / BLOCK {
        read_whole(from, &mut block)?;
    }
    read_whole(from, &mut block[..n % BLOCK])
}

/// Passes over a request that can't be served, and says so. Is there more to come?
fn pass<R: Read, W: Write>(
    alloc: Global,
    from: &mut R,
    to: &mut W,
    h: Header,
    fault: Fault,
) -> io::Result<bool> {
    if let Err(short) = skip(from, h.body as usize) {
        return say_torn(alloc, to, short);
    }
    say_fault(alloc, to, fault)?;
    Ok(true)
}

/// Serves one request. Is there more to come?
fn serve_next<R: Read, W: Write>(alloc: Global, from: &mut R, to: &mut W) -> io::Result<bool> {
    let mut head = [0u8; HEAD];
    let (got, read) = fill_front(from, &mut head);
    if got == 0 {
        read?;
        return Ok(false);
    }
    if got < HEAD {
        return say_torn(alloc, to, read);
    }
    let h = header_from(&head);
    match call_of(h) {
        Ok(call) => serve_body(alloc, from, to, call, h),
        Err(fault) => pass(alloc, from, to, h, fault),
    }
}

fn main(rt: HostRuntime) -> io::Result<()> {
    let mut from = rt.reader();
    let mut to = io::writer(&rt);
    for _ in 0..REQUESTS {
        if !serve_next(rt.alloc(), &mut from, &mut to)? {
            break;
        }
    }
    Ok(())
}
