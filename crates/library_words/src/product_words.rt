//! Products for callers that lend them as words: four for each factor.
ghost use Rattle.std.specs.Prelude.{◌≡◌};
ghost use Rattle.rules.specs.Refusals.{toldBy};
ghost use Rattle.products.specs.Told.{given};
ghost use Rattle.library_words.specs.Factors.{productIn, toldOf, written_of};

use calls_defined::inner::{self, put_factors};
use calls_defined::told::{Told, refused, said, short};
use products::Product;
use rules::Refusal;

/// The product whose factors these words are, four a factor: kind, name or index, numerator in two's complement, denominator. A torn last factor, like a
/// 65th, makes a product that no call takes (1).
pub fn product_from(words: &[u32]) -> Product
    ensures { given result ≡ productIn words.now }
{
    inner::product_from(words, (words.len() + 3) / 4)
}

/// What a call on products says: how many factors. All 64 places of its product are written to the result buffer, the unused ones too, as far as that
/// goes; a refusal writes nothing.
pub fn put_product(t: Result<Product, Refusal>, res: &mut [u32]) -> Told
    ensures { (result ≡ toldOf (toldBy given t)) × (res.new ≡ written_of (toldBy given t) res.old) }
{
    match t {
        Ok(p) => {
            put_factors(p, res);
            said(short(p.len), 0, 0)
        }
        Err(why) => refused(why, 0, 0),
    }
}
