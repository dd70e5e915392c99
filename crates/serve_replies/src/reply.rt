// An answer in bytes.
ghost use Rattle.std.specs.Prelude.{◌≡◌, ◌≤◌, IfOk};
ghost use Rattle.serve_replies.specs.Bytes.{bytes_of};
ghost use Rattle.serve_replies.specs.Requests.{faultNumber, lent_as};
ghost use Rattle.serve_replies.specs.Replies.{faultAs, flagOf, flags_of, answerOf, behindOf, saidBy, dispatchOn, replyTo, faultReply};

use crate::coding::put_words;
use crate::lent::Lent;
use crate::request::{Fault, Header};
use calls::called;
use calls_defined::numbers::Call;
use calls_defined::told::{Told, short};
use calls_defined::words::all_from;
use calls_defined::{Asked, Lists};
use std::alloc::{AllocError, Global};

/// What is said of a request that can't be served.
fn no_request(fault: u32) -> Told
    ensures { result ≡ faultAs fault }
{
    Told {
        refusal: 4294967295,
        value: fault,
        more: 0,
        rounds: 0,
        words: 0,
    }
}

fn flag(is: bool, number: u32) -> u32
    requires { number ≤ 4 }
    ensures { (result ≡ flagOf is number) × (result ≤ 4) }
{
    if is { number } else { 0 }
}

// 1: the result buffer is as before behind the answer. 2: the work buffer is all zero. 4: it is as before.
fn flags(t: &Told, h: Header, res: &[u32], work: &[u32]) -> u32
    ensures { result ≡ flags_of t.now.words h.result_was h.work_was res.now work.now }
{
    let rest = flag(all_from(res, t.words, h.result_was), 1);
    let zero = flag(all_from(work, 0, 0), 2);
    let same = flag(all_from(work, 0, h.work_was), 4);
    rest + zero + same
}

// An answer with the words behind it. Its length in bytes comes first.
fn in_bytes(alloc: Global, t: &Told, flags: u32, behind: &[u32]) -> Result<Vec<u8>, AllocError>
    ensures { IfOk result (λ v. v.items ≡ bytes_of (answerOf t.now flags behind.now)) }
{
    let head = [
        short(28 + behind.len() * 4),
        t.refusal,
        t.value,
        t.more,
        t.rounds,
        flags,
        short(t.words),
    ];
    let mut out = Vec::new(alloc);
    put_words(&mut out, &head)?;
    put_words(&mut out, behind)?;
    Ok(out)
}

// The answer's words, 0 where the result buffer is shorter; both buffers follow whole where the request asks for them.
fn behind(
    alloc: Global,
    h: Header,
    n: usize,
    res: &[u32],
    work: &[u32],
) -> Result<Vec<u32>, AllocError>
    ensures { IfOk result (λ v. v.items ≡ behindOf h n res.now work.now) }
{
    let front = n.min(res.len());
    let mut words = Vec::new(alloc);
    words.extend_from_slice(&res[..front])?;
    words.resize(n, 0)?;
    if h.show == 0 {
        return Ok(words);
    }
    words.extend_from_slice(res)?;
    words.extend_from_slice(work)?;
    Ok(words)
}

// What a call answers on what is lent to it.
fn answer(alloc: Global, call: Call, h: Header, lent: &mut Lent) -> Result<Vec<u8>, AllocError>
    ensures { IfOk result (λ v. v.items ≡ bytes_of (saidBy h (dispatchOn call h (lent_as lent.old)))) }
{
    let asked = Asked { x: h.x, y: h.y };
    let lists = Lists {
        a: &lent.a,
        b: &lent.b,
        c: &lent.c,
        d: &lent.d,
    };
    let told = called(
        call,
        asked,
        lists,
        &mut lent.pool,
        &mut lent.table,
        &mut lent.result,
        &mut lent.work,
    );
    let flags = flags(&told, h, &lent.result, &lent.work);
    let behind = behind(alloc, h, told.words, &lent.result, &lent.work)?;
    in_bytes(alloc, &told, flags, &behind)
}

/// What is written for a request that can be served: what its call says on what was sent, and what the buffers hold then.
#[tactic(auto, unfolding(crate::specs::Replies::replyTo))]
pub fn reply(alloc: Global, call: Call, h: Header, body: &[u8]) -> Result<Vec<u8>, AllocError>
    ensures { IfOk result (λ v. v.items ≡ replyTo call h body.now) }
{
    let mut lent = Lent::new(alloc, h, body)?;
    answer(alloc, call, h, &mut lent)
}

/// What is written for what is no request, by what is wrong with it.
#[tactic(auto, unfolding(crate::specs::Replies::faultReply))]
pub fn fault_reply(alloc: Global, fault: Fault) -> Result<Vec<u8>, AllocError>
    ensures { IfOk result (λ v. v.items ≡ faultReply (faultNumber fault)) }
{
    in_bytes(alloc, &no_request(fault.number()), 0, &[])
}
