//! Words and bytes of buffers.
ghost use Rattle.std.specs.Prelude.{◌≡◌, ◌==◌, map, drop};
ghost use Rattle.std.proofs.lemmas.List.Edits.{sets};
ghost use Rattle.rules.specs.Base.{all};
ghost use Rattle.calls_defined.specs.Fills.{low_byte};

use records::inner::put;

/// The low eight bits.
pub fn low(x: u32) -> u8
    ensures { result ≡ low_byte x }
{
    (x % 256) as u8
}

/// Copies a list to the front of a buffer, as far as it goes.
pub fn fill(a: &[u32], buffer: &mut [u32])
    ensures { buffer.new ≡ sets buffer.old 0 a.now }
{
    let n = a.len().min(buffer.len());
    buffer[..n].copy_from_slice(&a[..n]);
}

/// Each byte as a word, at the front of a buffer, as far as it goes.
pub fn fill_words(a: &[u8], buffer: &mut [u32])
    ensures { buffer.new ≡ sets buffer.old 0 a.now }
{
    for i in 0..a.len() {
        put(buffer, i, a[i] as u32);
    }
}

/// The low byte of each word, at the front of a buffer, as far as it goes.
pub fn fill_low(a: &[u32], buffer: &mut [u8])
    ensures { buffer.new ≡ sets buffer.old 0 (map low_byte a.now) }
{
    for i in 0..a.len() {
        put(buffer, i, low(a[i]));
    }
}

/// Is each word from this place on the given one?
pub fn all_from(a: &[u32], from: usize, word: u32) -> bool
    ensures { result ≡ all (λ x. x == word) (drop from a.now) }
{
    for i in from..a.len() {
        if a[i] != word {
            return false;
        }
    }
    true
}
