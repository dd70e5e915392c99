// The steps of the call past the check of 10: the set is written, solved and judged, and the last step's type is left in the work buffer.
ghost use Rattle.std.specs.Prelude.{◌≡◌, List, ℕ, ◌*◌, ◌≤◌, length};
ghost use Rattle.rules.specs.Replacing.{Look};
ghost use Rattle.rules.specs.Trees.{Con, Binding};
ghost use Rattle.records_buffers.specs.Told.{Made};
ghost use Rattle.replace.specs.Places.{Tabled};
ghost use Rattle.lines_entry.specs.Told.{stepsOf};
ghost use Rattle.judge.specs.Found.{FoundThere};
ghost use Rattle.lines.specs.Standing.{SetStands};
ghost use Rattle.lines.specs.Typed.{Typed, setType, Confirmed};
ghost use Rattle.lines.specs.Whole.{LineHeld, type_of, line_over};

use judge::inner::{Found, judge_found};
use lines_entry::inner::enter_line;
use lines_entry::inner::given::Line;
use lines_entry::inner::steps::Steps;
use lines_set::writing::put_line;
use names::tables::NameTable;
use queries::inner::is_unmixed;
use records::inner::{copy, put_one};
use records::{Open, View};
use replace::inner::bound::look_up;
use replace_table::inner::fill;
use rules::{NAMES, RECORD_WORDS, RECORDS, Refusal};
use solve::Finish;
use solve::inner::run;
use types::writer::Writer;

// Writes the type of a variable, with the bindings put in, to the front of a buffer: how many records.
fn put_type(places: &[u32], found: &[u32], v: u32, dst: &mut [u32]) -> usize
    requires { (look : Look ℕ) × Tabled places.now found.now look }
    ensures { (look : Look ℕ) → Tabled places.now found.now look → Typed look v dst.old dst.new result }
{
    match look_up(places, found, Open::Var(v)) {
        Some((b, e)) => {
            copy(found, b, e, dst, 0);
            e - b
        }
        None => {
            put_one(dst, 0, View::Opened(Open::Var(v)));
            1
        }
    }
}

// Judges what was found over the set. After a yes the type of v stands in the work buffer.
fn confirm(
    names: NameTable,
    set: &[u32],
    found: Found,
    v: u32,
    work: &mut [u32],
) -> Result<usize, Refusal>
    requires stands { (cs : List (Con ℕ)) × SetStands names.pool.now names.table.now set.now cs }
    requires answered { (bs : List (Binding ℕ)) ×
        ((ns : List ℕ) × FoundThere names.pool.now names.table.now found.words.now found.bindings found.bounds bs ns) }
    requires room { 16384 ≤ length work.old }
    ensures { Confirmed names.entry.pool.now names.entry.table.now set.now found.entry.words.now found.entry.bindings found.entry.bounds v work.new result }
{
    match judge_found(names, set, found, work) {
        Ok(None) => {
            let mut places = [0u32; NAMES];
            fill(found.words, 0, found.bindings, &mut places);
            Ok(put_type(&places, found.words, v, work))
        }
        Ok(Some(_)) => Err(Refusal::NotConfirmed),
        Err(k) => Err(k),
    }
}

// Solves the set, judges the answer over the same set, and leaves the type of v.
fn settle(names: NameTable, set: &[u32], v: u32, work: &mut [u32]) -> Result<usize, Refusal>
    requires stands { (cs : List (Con ℕ)) × SetStands names.pool.now names.table.now set.now cs }
    requires room { 16384 ≤ length work.old }
    ensures { (cs : List (Con ℕ)) → SetStands names.entry.pool.now names.entry.table.now set.now cs →
        Made (setType names.entry.pool.now names.entry.table.now cs v) work.new result }
{
    let n = set.len() / 4;
    if !is_unmixed(set, 0, n) {
        return Err(Refusal::Mixed);
    }
    let mut words = [0u32; RECORD_WORDS];
    let s = run(names, set, &mut words, work);
    match s.outcome {
        Ok(Finish::Solved(bindings, bounds)) => {
            let found = Found {
                words: &words,
                bindings,
                bounds,
            };
            confirm(names, set, found, v, work)
        }
        Ok(Finish::Unsolved(_)) => Err(Refusal::Unsolved),
        Err(k) => Err(k),
    }
}

// The type of a line that passed the checks at entry.
fn type_line(
    names: NameTable,
    steps: &Steps,
    lent: &[u32],
    work: &mut [u32],
) -> Result<usize, Refusal>
    requires read { LineHeld names.pool.now names.table.now lent.now (stepsOf steps.now) }
    requires room { 16384 ≤ length work.old }
    ensures { Made (type_of names.entry.pool.now names.entry.table.now lent.now (stepsOf steps.now)) work.new result }
{
    let mut set = [0u32; RECORD_WORDS];
    let mut out = Writer {
        words: &mut set,
        at: 0,
    };
    put_line(names, steps, lent, &mut out);
    let n = out.at;
    if RECORDS < n {
        return Err(Refusal::TooLarge);
    }
    let v = lent[steps.len - 1];
    let end = n * 4;
    settle(names, &set[0..end], v, work)
}

// All that the call does past the check of 10; what it makes is left at the start of the work buffer.
pub fn make_line(
    names: Result<NameTable, Refusal>,
    line: Line,
    work: &mut [u32],
) -> Result<usize, Refusal>
    requires lent { length line.steps.now ≤ length line.lent.now * 4 }
    requires room { 16384 ≤ length work.old }
    ensures { Made (line_over names.entry line.entry.steps.now line.entry.types.now line.entry.earlier.now line.entry.lent.now) work.new result }
{
    let steps = enter_line(names, line)?;
    let names = names?; // where the table was refused, the line was too
    type_line(names, &steps, line.lent, work)
}
