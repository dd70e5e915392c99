//! Looking open names up.
ghost use Rattle.std.specs.Prelude.{◌≡◌, ℕ, ◌≤◌, get_or};
ghost use Rattle.rules.specs.Base.{any};
ghost use Rattle.rules.specs.Refusals.{toldOptionBy};
ghost use Rattle.rules.specs.Replacing.{Look};
ghost use Rattle.records.specs.Views.{viewAt};
ghost use Rattle.records.specs.Holds.{openOf};
ghost use Rattle.queries.specs.Scans.{opensIn, opensView};
ghost use Rattle.types.specs.Shapes.{tree_of};
ghost use Rattle.replace.specs.Places.{Called, nameWord, Tabled, unsaid, word_of};
ghost use Rattle.replace.specs.Runs.{LookedUp};
ghost use Rattle.replace.specs.Leaves.{replaced};

use crate::substitution::Substitution;
use names::inner::word_at;
use queries::inner::{end_of, opens_at};
use records::Open;
use types::Type;

// The word of a variable or a parameter: only the 256 names have one.
fn name_word(places: &[u32], first: usize, x: u32) -> u32
    requires { first ≤ 256 }
    ensures { result ≡ nameWord places.now first x }
{
    if x < 256 {
        word_at(places, first + x as usize)
    } else {
        0
    }
}

fn word_of(places: &[u32], o: Open) -> u32
    ensures { result ≡ word_of places.now (openOf o) }
{
    match o {
        Open::Var(x) => name_word(places, 0, x),
        Open::Quant(i) => word_at(places, 512 + i as usize),
        Open::Par(x) => name_word(places, 256, x),
    }
}

// Does no open name of this number have a word?
fn is_unsaid(places: &[u32], x: u32) -> bool
    ensures { result ≡ unsaid places.now x }
{
    if word_of(places, Open::Var(x)) != 0 {
        return false;
    }
    if word_of(places, Open::Par(x)) != 0 {
        return false;
    }
    word_of(places, Open::Quant(x)) == 0
}

// The word of a record that is the number of its open name, if it has one.
fn number_at(s: &[u32], i: usize) -> u32
    ensures { Called result (opensView (viewAt s.now i)) }
{
    if s.len() / 4 <= i {
        return 0;
    }
    s[i * 4 + 1]
}

/// Where the type stands that an open name becomes, from its first record up to the end; nothing where the name stays.
pub fn look_up(places: &[u32], v: &[u32], o: Open) -> Option<(usize, usize)>
    requires { (look : Look ℕ) × Tabled places.now v.now look }
    ensures { (look : Look ℕ) → Tabled places.now v.now look → LookedUp v.now (look (openOf o)) result }
{
    let w = word_of(places, o);
    if w == 0 {
        return None;
    }
    let at = w as usize - 1;
    Some((at, end_of(v, at)))
}

impl<'a> Substitution<'a> {
    /// The type that an open name becomes; nothing where the name stays.
    pub fn look_up(self, o: Open) -> Option<Type<'a>>
        ensures { toldOptionBy tree_of result ≡ self.entry.lent.0 (openOf o) }
    {
        let w = word_of(self.places, o);
        if w == 0 {
            return None;
        }
        Some(Type {
            words: self.types,
            at: w as usize - 1,
        })
    }

    /// Is the open name of the record at a place replaced, if it has one?
    fn changes(self, s: &[u32], i: usize) -> bool
        ensures { result ≡ any (replaced self.entry.lent.0) (opensView (viewAt s.now i)) }
    {
        if is_unsaid(self.places, number_at(s, i)) {
            return false; // so it is of most records, and they aren't read
        }
        match opens_at(s, i) {
            Some(o) => self.look_up(o).is_some(),
            None => false,
        }
    }

    /// Is one of the open names in the records from b up to e replaced?
    pub fn touches(self, s: &[u32], b: usize, e: usize) -> bool
        ensures { result ≡ any (replaced self.entry.lent.0) (opensIn s.now b e) }
    {
        for i in b..e {
            if self.changes(s, i) {
                return true;
            }
        }
        false
    }
}
