//! The type and bounds of a scheme with handed names put back.
ghost use Rattle.std.specs.Prelude.{◌≤◌, length};
ghost use Rattle.records_buffers.specs.Told.{Made};
ghost use Rattle.schemes_handed.specs.Given.{scheme_in};
ghost use Rattle.schemes_instantiate.specs.Ready.{Ready, ReadyScheme, putBackAs, instantiatedAs};

use replace::inner::walk::replace_type;
use replace::substitution::Substitution;
use rules::Refusal;
use schemes_handed::inner::bounds::put_bounds;
use schemes_handed::inner::tables::{keep_names, put_names_back};
use schemes_handed::{Bounds, Handed, Scheme};
use types::Type;
use types::writer::Writer;

/// Writes the type of a scheme, and the bounds behind it, with the names put back, to the work buffer: how many records, or why not.
/// The second walk reads a product that is one variable to the power 1 as that variable.
fn put_back(handed: Handed, t: Type, bounds: Bounds, work: &mut [u32]) -> Result<usize, Refusal>
    requires ready { Ready handed t.tree.0 bounds.listed.0 }
    requires work_room { 16384 ≤ length work.old }
    ensures { Made (putBackAs handed.entry t.entry.tree.0 bounds.entry.listed.0) work.new result }
{
    let names = handed.names;
    let mut places = [0u32; 2560];
    let mut own = [0u32; 256];
    let mut types = [0u32; 1024];
    put_names_back(handed, &mut places);
    keep_names(names, &mut own, &mut types);
    let back = Substitution {
        names,
        places: &places,
        types: &types,
    };
    let itself = Substitution {
        names,
        places: &own,
        types: &types,
    };
    let mut between = [0u32; 8192];
    let mut first = Writer {
        words: &mut between,
        at: 0,
    };
    replace_type(back, t, &mut first)?;
    let read = Type {
        words: first.words,
        at: 0,
    };
    let mut out = Writer { words: work, at: 0 };
    replace_type(itself, read, &mut out)?;
    put_bounds(back, bounds, true, &mut out);
    Ok(out.at)
}

/// A scheme with as many names as it quantifies; a concrete type is refused.
pub fn instantiate_scheme(
    handed: Handed,
    scheme: Scheme,
    work: &mut [u32],
) -> Result<usize, Refusal>
    requires ready { ReadyScheme handed (scheme_in scheme) }
    requires work_room { 16384 ≤ length work.old }
    ensures { Made (instantiatedAs handed.entry (scheme_in scheme.entry)) work.new result }
{
    match scheme {
        Scheme::Concrete(_) => Err(Refusal::WrongCount),
        Scheme::Quantified(n, t, bounds) => {
            if n as usize != handed.numbers.len() {
                return Err(Refusal::WrongCount);
            }
            put_back(handed, t, bounds, work)
        }
    }
}
