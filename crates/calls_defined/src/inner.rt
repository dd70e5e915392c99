//! Exponents and products from words and back, for callers that know the places.
ghost use Rattle.std.specs.Prelude.{◌≡◌, ◌≤◌};
ghost use Rattle.std.proofs.lemmas.List.Edits.{sets};
ghost use Rattle.rules.specs.Base.{collect};
ghost use Rattle.exponents.specs.Answers.{expOf};
ghost use Rattle.products.specs.Told.{valueIn, given};
ghost use Rattle.calls_defined.specs.Factors.{exponentAt, factorAt, productAt, factorWords};

use exponents::Exponent;
use names::inner::word_at;
use products::{Factor, Product};
use records::inner::put;
use rules::FACTORS;

/// Numerator and denominator from a place on.
pub fn exponent_at(words: &[u32], i: usize) -> Exponent
    requires { i ≤ 1000000 }
    ensures { expOf result ≡ exponentAt words.now i }
{
    Exponent::from_words(word_at(words, i), word_at(words, i + 1))
}

// The i-th four words.
fn factor_at(words: &[u32], i: usize) -> Factor
    requires { i ≤ 64 }
    ensures { valueIn result ≡ factorAt words.now i }
{
    Factor {
        kind: word_at(words, i * 4),
        name: word_at(words, i * 4 + 1),
        exp: exponent_at(words, i * 4 + 2),
    }
}

/// A product of any count: its 64 places are the list's first records.
pub fn product_from(words: &[u32], count: usize) -> Product
    ensures { given result ≡ productAt words.now count }
{
    let mut p = Product::scalar();
    for i in 0..FACTORS {
        p.factors[i] = factor_at(words, i);
    }
    p.len = count;
    p
}

// The four words of a factor.
fn put_factor(f: Factor, dst: &mut [u32], at: usize)
    requires { at ≤ 1000000 }
    ensures { dst.new ≡ sets dst.old at (factorWords (valueIn f)) }
{
    put(dst, at, f.kind);
    put(dst, at + 1, f.name);
    put(dst, at + 2, f.exp.num_word());
    put(dst, at + 3, f.exp.den);
}

/// All 64 places, the unused ones too, as far as the buffer goes.
pub fn put_factors(p: Product, dst: &mut [u32])
    ensures { dst.new ≡ sets dst.old 0 (collect factorWords (given p).factors) }
{
    for (i, factor) in p.factors.iter().enumerate() {
        put_factor(*factor, dst, i * 4);
    }
}
