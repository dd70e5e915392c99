//! A type and bounds with handed names quantified, written as a scheme.
ghost use Rattle.std.specs.Prelude.{◌≤◌, length};
ghost use Rattle.records_buffers.specs.Told.{Made};
ghost use Rattle.schemes_quantify.specs.Ready.{Sound, quantifiedAs};

use records::View;
use replace::inner::walk::replace_type;
use replace::substitution::Substitution;
use rules::{RECORDS, Refusal};
use schemes_handed::inner::bounds::put_bounds;
use schemes_handed::inner::tables::quantify_names;
use schemes_handed::{Bounds, Handed};
use types::Type;
use types::writer::Writer;

/// Writes the type and the bounds as a scheme, to the work buffer, with the handed names quantified: how many records, or why not.
/// Where not all bounds are asked for, those of names that weren't handed are left out.
pub fn quantify_at(
    handed: Handed,
    t: Type,
    bounds: Bounds,
    all: bool,
    work: &mut [u32],
) -> Result<usize, Refusal>
    requires sound { Sound handed.names.pool.now handed.names.table.now t.tree.0 }
    requires work_room { 16384 ≤ length work.old }
    ensures { Made (quantifiedAs handed.entry all t.entry.tree.0 bounds.entry.listed.0) work.new result }
{
    let mut places = [0u32; 512];
    let mut types = [0u32; 1024];
    quantify_names(handed, &mut places, &mut types);
    let by = Substitution {
        names: handed.names,
        places: &places,
        types: &types,
    };
    let mut out = Writer { words: work, at: 0 };
    let start = out.reserve();
    replace_type(by, t, &mut out)?;
    put_bounds(by, bounds, all, &mut out);
    if RECORDS < out.at {
        return Err(Refusal::TooLarge);
    }
    out.begin(start, View::Scheme(handed.numbers.len() as u32));
    Ok(out.at)
}
