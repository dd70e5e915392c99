// Tables of places and types, as the walks of `replace` look names up: from the last handed name to the first, so that the first counts.
ghost use Rattle.std.specs.Prelude.{◌≡◌, [], ◌∷◌, ◌+◌, ◌*◌, ◌<◌, set, get_or};
ghost use Rattle.std.proofs.lemmas.List.Edits.{sets};
ghost use Rattle.rules.specs.Writing.{words, rec, head};
ghost use Rattle.schemes_handed.specs.Tables.{quantPlaces, quantTypes, backPlaces, ownPlaces, ownTypes};

use super::super::Handed;
use names::inner::count;
use names::tables::NameTable;
use records::inner::{put, put_one};
use records::{Open, View};

// The variable and the parameter x become quantified variable i.
fn quantify_name(x: u32, i: u32, places: &mut [u32], v: &mut [u32])
    requires { x < 256 }
    ensures { (places.new ≡ set (set places.old x (x + 1)) (256 + x) (x + 1)) × (v.new ≡ sets v.old (x * 4) (words (rec (head 14 1) i 0 0 ∷ []))) }
{
    let at = x as usize;
    put(places, at, x + 1);
    put(places, 256 + at, x + 1);
    put_one(v, at, View::Opened(Open::Quant(i)));
}

/// Each handed name becomes the quantified variable of its first place.
pub fn quantify_names(handed: Handed, places: &mut [u32], v: &mut [u32])
    ensures { (places.new ≡ quantPlaces handed.entry.numbers.now places.old) × (v.new ≡ quantTypes 0 handed.entry.numbers.now v.old) }
{
    let numbers = handed.numbers;
    for i in (0..numbers.len()).rev() {
        quantify_name(numbers[i], i as u32, places, v);
    }
}

/// Quantified variable i becomes the i-th handed name.
pub fn put_names_back(handed: Handed, places: &mut [u32])
    ensures { places.new ≡ backPlaces 0 handed.entry.numbers.now places.old }
{
    let numbers = handed.numbers;
    for i in (0..numbers.len()).rev() {
        put(places, 512 + i, numbers[i] + 1);
    }
}

/// Each name of the table becomes itself, as a variable.
pub fn keep_names(names: NameTable, places: &mut [u32], v: &mut [u32])
    ensures { (places.new ≡ ownPlaces (get_or names.entry.table.now 0 0) places.old) × (v.new ≡ ownTypes (get_or names.entry.table.now 0 0) v.old) }
{
    for x in 0..count(names.table) {
        let at = x as usize;
        put(places, at, x + 1);
        put_one(v, at, View::Opened(Open::Var(x)));
    }
}
