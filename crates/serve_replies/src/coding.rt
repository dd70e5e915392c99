// Words as bytes, the lowest first.
ghost use Rattle.std.specs.Prelude.{◌≡◌, ◌++◌, drop, IfOk, OnOk};
ghost use Rattle.serve_replies.specs.Bytes.{word_at, words_in, bytes_of};

use std::alloc::{AllocError, Global};

/// The word whose four bytes stand at a place; 0 past the end.
pub fn word_at(s: &[u8], at: usize) -> u32
    ensures { result ≡ word_at s.now at }
{
    if s.len() < 4 {
        return 0;
    }
    if s.len() - 4 < at {
        return 0;
    }
    s[at] as u32 + s[at + 1] as u32 * 256 + s[at + 2] as u32 * 65536 + s[at + 3] as u32 * 16777216
}

// The bytes from a place on.
fn behind(s: &[u8], at: usize) -> &[u8]
    ensures { result.now ≡ drop at s.now }
{
    s.get(at..).unwrap_or(&[])
}

// The first n words; 0 past the end.
#[tactic(auto, unfolding(crate::specs::Bytes::words_in))]
fn front_words(alloc: Global, s: &[u8], n: u32) -> Result<Vec<u32>, AllocError>
    ensures { IfOk result (λ v. v.items ≡ words_in s.now n) }
{
    let mut words = Vec::with_capacity(alloc, n as usize)?;
    for i in 0..n as usize {
        words.push(word_at(s, i * 4))?;
    }
    Ok(words)
}

/// The n words from a place on; 0 past the end.
pub fn words_from(alloc: Global, s: &[u8], at: usize, n: u32) -> Result<Vec<u32>, AllocError>
    ensures { IfOk result (λ v. v.items ≡ words_in (drop at s.now) n) }
{
    front_words(alloc, behind(s, at), n)
}

/// Puts words.
pub fn put_words(out: &mut Vec<u8>, words: &[u32]) -> Result<(), AllocError>
    ensures { OnOk result (out.new.items ≡ out.old.items ++ bytes_of words.now) }
{
    for word in words {
        out.extend_from_slice(&word.to_le_bytes())?;
    }
    Ok(())
}
