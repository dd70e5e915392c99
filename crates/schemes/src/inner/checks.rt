//! The checks of the calls on schemes that look at no single list: the first and the last of them.
ghost use Rattle.std.specs.Prelude.{◌≡◌, List, ◌/◌, length};
ghost use Rattle.rules.specs.Base.{need};
ghost use Rattle.rules.specs.Contents.{unmixed};
ghost use Rattle.rules.specs.Names.{Bytes, numbered};
ghost use Rattle.rules.specs.Refusals.{told};
ghost use Rattle.queries.specs.Marks.{Small};
ghost use Rattle.queries.specs.Scans.{opensIn};
ghost use Rattle.schemes.specs.Entry.{short};

use queries::inner::is_unmixed;
use rules::{RECORDS, Refusal};
use types::given;

/// Two lists of at most 2,048 records, and at most 2,048 handed numbers (8).
pub fn check_lengths(words: &[u32], bounds: &[u32], numbers: &[u32]) -> Result<(), Refusal>
    ensures { told result ≡ short words.now bounds.now numbers.now }
{
    given::short(words)?;
    given::short(bounds)?;
    if RECORDS < numbers.len() {
        return Err(Refusal::TooLarge);
    }
    Ok(())
}

/// No name in a list is both a variable and a parameter (4).
pub fn check_unmixed(words: &[u32]) -> Result<(), Refusal>
    requires { Small (opensIn words.now 0 (length words.now / 4)) }
    ensures { (names : List Bytes) → told result ≡ need (unmixed (numbered names) (opensIn words.now 0 (length words.now / 4))) 4 }
{
    if is_unmixed(words, 0, words.len() / 4) {
        Ok(())
    } else {
        Err(Refusal::Mixed)
    }
}
