// The steps of the judge past the slice of entries, which comes as slots by variable.
ghost use Rattle.std.specs.Prelude.{◌≡◌, IfOk, List, ℕ, Ok, ◌≤◌, length};
ghost use Rattle.rules.specs.Base.{need};
ghost use Rattle.rules.specs.Calls.{Entry, judgeCall};
ghost use Rattle.rules.specs.Refusals.{told, toldBy};
ghost use Rattle.rules.specs.Trees.{Con, Binding};
ghost use Rattle.judge_entries.specs.Slotted.{Slotted};
ghost use Rattle.judge_trials.specs.Trials.{SetThere};
ghost use Rattle.judge.specs.Told.{judgedAs};
ghost use Rattle.judge.specs.Found.{FoundThere, FoundJudged};
ghost use Rattle.judge.specs.Entry.{lentAll, entered, Entered, BoundsGiven, judgedRest, judged_over};
ghost use Rattle.types.specs.Given.{constraints_in};

use judge_entries::inner::{Slots, fill};
use judge_proposals::inner::bounds::{bound_names, rise};
use judge_proposals::inner::mixed::apart;
use judge_trials::inner::{first_failing, try_all};
use names::tables::NameTable;
use queries::name_set::NameSet;
use records::inner::bounds_good;
use records_buffers::inner::clear;
use replace_table::inner::fill as note_all;
use rules::{NAMES, POOL_BYTES, RECORD_WORDS, RECORDS, Refusal, TABLE_WORDS, WORK_WORDS};
use types::GivenSet;

// Is everything that is lent long enough?
fn lent(pool: &[u8], table: &[u32], work: &[u32]) -> bool
    ensures { need result 10 ≡ lentAll pool.now table.now work.now }
{
    if pool.len() < POOL_BYTES || table.len() < TABLE_WORDS {
        return false;
    }
    WORK_WORDS <= work.len()
}

// The set, where no list is too long (8) and the table passed its test; 1 where it is not well formed.
fn enter<'a>(
    names: Result<NameTable<'a>, Refusal>,
    set: &'a [u32],
    proposal: Proposal,
) -> Result<GivenSet<'a>, Refusal>
    ensures answer { (es : List Entry) → proposal.entry.slots.count ≡ length es →
        toldBy constraints_in result ≡ entered names.entry set.now es proposal.entry.types.now proposal.entry.bounds.now }
    ensures same { IfOk result (λ s. names.entry ≡ Ok s.names) }
{
    if RECORD_WORDS < proposal.types.len() || RECORD_WORDS < proposal.bounds.len() {
        return Err(Refusal::TooLarge);
    }
    let count = proposal.slots.count;
    if RECORDS < count {
        return Err(Refusal::TooLarge);
    }
    GivenSet::new(names, set)
}

// The names of the bounds, where these are bounds with names that rise.
fn bounds_given(names: NameTable, bounds: &[u32]) -> Option<NameSet>
    ensures { BoundsGiven names.entry.pool.now names.entry.table.now bounds.now result }
{
    let good = bounds_good(names, 0, bounds, 0);
    if bounds.len() % 4 != 0 {
        return None;
    }
    if !good {
        return None;
    }
    if !rise(names, bounds) {
        return None;
    }
    Some(bound_names(bounds))
}

/// What is proposed: bounds with names, and the types that the entries point to, of which each variable has its slot.
#[derive(Clone, Copy)]
pub struct Proposal<'a> {
    pub types: &'a [u32],
    pub bounds: &'a [u32],
    pub slots: Slots,
}

// Past the set: entries and bounds (1), names that are both (4), then constraint by constraint.
fn judge_rest(
    names: NameTable,
    set: &[u32],
    proposal: Proposal,
    work: &mut [u32],
) -> Result<bool, Refusal>
    requires set_entered { (cs : List (Con ℕ)) × Entered names.pool.now names.table.now set.now proposal.types.now cs }
    requires entries_slotted { (es : List Entry) × Slotted es proposal.slots }
    requires few_entries { proposal.slots.count ≤ 2048 }
    requires work_room { 16384 ≤ length work.old }
    ensures { (cs : List (Con ℕ)) (es : List Entry) → Entered names.entry.pool.now names.entry.table.now set.now proposal.entry.types.now cs
        → Slotted es proposal.entry.slots →
        told result ≡ judgedRest names.entry.pool.now names.entry.table.now es proposal.entry.types.now proposal.entry.bounds.now cs }
{
    let mut places = [0u32; NAMES];
    if !fill(names, proposal.types, proposal.slots, &mut places) {
        return Err(Refusal::Malformed);
    }
    let Some(allowed) = bounds_given(names, proposal.bounds) else {
        return Err(Refusal::Malformed);
    };
    if !apart(set, proposal.types, &places) {
        return Err(Refusal::Mixed);
    }
    try_all(names, set, &places, proposal.types, &allowed, work)
}

// All that the judge does past the check of 10, except for clearing the work buffer.
fn judge_set(
    names: Result<NameTable, Refusal>,
    set: &[u32],
    proposal: Proposal,
    work: &mut [u32],
) -> Result<bool, Refusal>
    requires entries_slotted { (es : List Entry) × Slotted es proposal.slots }
    requires work_room { 16384 ≤ length work.old }
    ensures { (es : List Entry) → Slotted es proposal.entry.slots →
        told result ≡ judged_over names.entry set.now es proposal.entry.types.now proposal.entry.bounds.now }
{
    let given = enter(names, set, proposal)?;
    judge_rest(given.names, set, proposal, work)
}

// The whole call. Of more than 2,048 entries it is not asked whether a name repeats.
pub fn judge_slots(
    pool: &[u8],
    table: &[u32],
    set: &[u32],
    proposal: Proposal,
    work: &mut [u32],
) -> Result<bool, Refusal>
    requires { (es : List Entry) × Slotted es proposal.slots }
    ensures { (es : List Entry) → Slotted es proposal.entry.slots →
        judgedAs result work.new ≡ judgeCall pool.now table.now set.now es proposal.entry.types.now proposal.entry.bounds.now work.old }
{
    if !lent(pool, table, work) {
        return Err(Refusal::ShortBuffer);
    }
    let names = NameTable::new(pool, table);
    let answer = judge_set(names, set, proposal, work);
    clear(work);
    answer
}

/// What solving found over a set: bindings in the records up to a place, and so many bounds behind them.
#[derive(Clone, Copy)]
pub struct Found<'a> {
    pub words: &'a [u32],
    pub bindings: usize,
    pub bounds: usize,
}

/// Which constraint of the set isn't true once what was found is put in, the first, counted from 0? Nothing where the judge says yes.
/// What was found is read where it stands.
pub fn judge_found(
    names: NameTable,
    set: &[u32],
    found: Found,
    work: &mut [u32],
) -> Result<Option<usize>, Refusal>
    requires constraints_stand { (cs : List (Con ℕ)) × SetThere names.pool.now names.table.now set.now cs }
    requires answer_stands { (bs : List (Binding ℕ)) × ((ns : List ℕ)
        × FoundThere names.pool.now names.table.now found.words.now found.bindings found.bounds bs ns) }
    requires few_records { length set.now ≤ 8192 }
    requires work_room { 8192 ≤ length work.old }
    ensures { (cs : List (Con ℕ)) (bs : List (Binding ℕ)) (ns : List ℕ) → SetThere names.entry.pool.now names.entry.table.now set.now cs
        → FoundThere names.entry.pool.now names.entry.table.now found.entry.words.now found.entry.bindings found.entry.bounds bs ns
        → FoundJudged names.entry.pool.now names.entry.table.now bs ns cs result }
{
    let mut places = [0u32; NAMES];
    note_all(found.words, 0, found.bindings, &mut places);
    let from = found.bindings * 4;
    let to = from + found.bounds * 4;
    let allowed = bound_names(&found.words[from..to]);
    first_failing(names, set, &places, found.words, &allowed, work)
}
