//! What is told of a product.
ghost use Rattle.std.specs.Prelude.{◌≡◌};
ghost use Rattle.rules.specs.Refusals.{toldBy};
ghost use Rattle.products.specs.Told.{given};
ghost use Rattle.calls_defined.specs.Dispatch.{shown};
ghost use Rattle.calls.specs.Values.{valueShown};

use calls_defined::inner::put_factors;
use calls_defined::told::{Told, refused, said, short};
use products::Product;
use rules::Refusal;

/// The factors of a product that was made, or of the scalar beside a refusal.
pub fn told_product(t: Result<Product, Refusal>, dst: &mut [u32]) -> Told
    ensures { shown result dst.new ≡ valueShown (toldBy given t) dst.old }
{
    match t {
        Ok(p) => {
            put_factors(p, dst);
            said(short(p.len), 0, 256)
        }
        Err(why) => {
            put_factors(Product::scalar(), dst);
            refused(why, 0, 256)
        }
    }
}
