// The work on entries.
ghost use Rattle.std.specs.Prelude.{◌≡◌, ◌≤◌, not, length};
ghost use Rattle.rules.specs.Calls.{differ};
ghost use Rattle.rules.specs.Refusals.{toldOption};
ghost use Rattle.judge_entries.specs.Entries.{told, place_of, variablesOf};
ghost use Rattle.judge_entries.specs.Slotted.{Slotted};
ghost use Rattle.judge_entries.specs.Tables.{Ready, WordFor, Made};

use super::Entry;
use names::tables::NameTable;
use records::inner::{put, type_end};
use rules::{NAMES, NESTED, RECORDS};

// What a variable is bound to: the first entry counts.
pub fn look_up(entries: &[Entry], v: u32) -> Option<u32>
    ensures { toldOption result ≡ place_of (told entries.now) v }
{
    for e in entries {
        if e.variable == v {
            return Some(e.place);
        }
    }
    None
}

// Is a variable named twice?
pub fn repeats(entries: &[Entry]) -> bool
    ensures { result ≡ not (differ (variablesOf (told entries.now))) }
{
    for i in 0..entries.len() {
        if look_up(&entries[i + 1..], entries[i].variable).is_some() {
            return true;
        }
    }
    false
}

// The entries by variable: for each name the place that it is bound to, if it is; whether a name is bound twice, of 2,048 entries at most; and how many
// entries there are.
#[derive(Clone, Copy)]
pub struct Slots {
    pub places: [Option<u32>; NAMES],
    pub repeated: bool,
    pub count: usize,
}

// Each name is looked up. From here on nothing has a `&[Entry]`.
pub fn slots_of(entries: &[Entry]) -> Slots
    ensures { Slotted (told entries.now) result }
{
    let mut places = [None; NAMES];
    for v in 0..NAMES {
        places[v] = look_up(entries, v as u32);
    }
    Slots {
        places,
        repeated: entries.len() <= RECORDS && repeats(entries),
        count: entries.len(),
    }
}

// The word of a slot in the table of places, if its variable is held and a well formed type starts at its place.
fn word_for(names: NameTable, types: &[u32], v: u32, slot: Option<u32>) -> Option<u32>
    requires { length types.now ≤ 8192 }
    ensures { WordFor names.entry.pool.now names.entry.table.now types.now v slot result }
{
    let Some(place) = slot else {
        return Some(0);
    };
    if !names.is_held(v) || type_end(names, 0, types, place as usize, NESTED).is_none() {
        return None;
    }
    Some(place + 1)
}

// Writes the slots as the table of places, if all that is asked of the entries holds: as many slots are taken as there are entries.
pub fn fill(names: NameTable, types: &[u32], slots: Slots, places: &mut [u32]) -> bool
    requires { Ready types.now places.old }
    ensures { Made names.entry.pool.now names.entry.table.now types.now slots.places slots.repeated slots.count places.new result }
{
    if types.len() % 4 != 0 || slots.repeated {
        return false;
    }
    let mut taken = 0;
    for v in 0..NAMES {
        let slot = slots.places[v];
        let Some(word) = word_for(names, types, v as u32, slot) else {
            return false;
        };
        put(places, v, word);
        if slot.is_some() {
            taken += 1;
        }
    }
    taken == slots.count
}
