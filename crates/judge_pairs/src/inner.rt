// Pairs of words looked through as `judge_entries` looks through its slice of structs.
ghost use Rattle.std.specs.Prelude.{◌≡◌, not};
ghost use Rattle.rules.specs.Calls.{differ};
ghost use Rattle.rules.specs.Refusals.{toldOption};
ghost use Rattle.judge_entries.specs.Entries.{variablesOf, place_of};
ghost use Rattle.judge_entries.specs.Slotted.{Slotted};
ghost use Rattle.judge_pairs.specs.Pairs.{entriesIn};

use judge_entries::inner::Slots;
use rules::{NAMES, RECORDS};

// What a variable is bound to: the first pair counts.
pub fn look_up(pairs: &[u32], v: u32) -> Option<u32>
    ensures { toldOption result ≡ place_of (entriesIn pairs.now) v }
{
    let mut rest = pairs;
    while let [variable, place, behind @ ..] = rest {
        if *variable == v {
            return Some(*place);
        }
        rest = behind;
    }
    None
}

// Is a variable named twice?
pub fn repeats(pairs: &[u32]) -> bool
    ensures { result ≡ not (differ (variablesOf (entriesIn pairs.now))) }
{
    let mut rest = pairs;
    while let [variable, _, behind @ ..] = rest {
        if look_up(behind, *variable).is_some() {
            return true;
        }
        rest = behind;
    }
    false
}

// The pairs by variable, as the judge takes its entries.
pub fn slots_of(pairs: &[u32]) -> Slots
    ensures { Slotted (entriesIn pairs.now) result }
{
    let mut places = [None; NAMES];
    for v in 0..NAMES {
        places[v] = look_up(pairs, v as u32);
    }
    let count = pairs.len() / 2;
    Slots {
        places,
        repeated: count <= RECORDS && repeats(pairs),
        count,
    }
}
