// The steps of a line are read, the lent names looked for in their types.
pub mod fresh;
pub mod given;
pub mod parsing;
pub mod steps;

ghost use Rattle.std.specs.Prelude.{◌≡◌};
ghost use Rattle.rules.specs.Base.{need};
ghost use Rattle.rules.specs.Refusals.{toldBy};
ghost use Rattle.rules.specs.Lines.{lineLent, lineShort};
ghost use Rattle.lines_entry.specs.Entered.{entered_over};
ghost use Rattle.lines_entry.specs.Told.{stepsOf};

use fresh::{all_held, is_fresh};
use given::Line;
use names::tables::NameTable;
use parsing::read_steps;
use records_buffers::lent;
use rules::{RECORD_WORDS, RECORDS, Refusal};
use steps::Steps;

// A line has at most 128 steps.
const STEP_WORDS: usize = 512;

/// Is everything that is lent long enough, and is there a name for each step?
pub fn room(
    pool: &[u8],
    table: &[u32],
    steps: &[u32],
    names: &[u32],
    res: &[u32],
    work: &[u32],
) -> bool
    ensures { need result 10 ≡ lineLent pool.now table.now steps.now names.now res.now work.now }
{
    if !lent(pool, table, res, work) {
        return false;
    }
    let n = steps.len() / 4;
    if n < names.len() {
        return true;
    }
    if names.len() < n {
        return false;
    }
    steps.len() % 4 == 0
}

// Is nothing that is lent too long?
fn short(line: Line) -> bool
    ensures { need result 8 ≡ lineShort line.entry.steps.now line.entry.types.now line.entry.earlier.now line.entry.lent.now }
{
    if STEP_WORDS < line.steps.len() {
        return false;
    }
    if RECORD_WORDS < line.types.len() {
        return false;
    }
    if RECORDS < line.earlier.len() {
        return false;
    }
    line.lent.len() <= RECORDS
}

/// All checks past 10, in their order: 8, the table's, 1, 4, 3. The steps, where none of them refuses.
pub fn enter_line<'a>(
    names: Result<NameTable, Refusal>,
    line: Line<'a>,
) -> Result<Steps<'a>, Refusal>
    ensures { toldBy stepsOf result ≡ entered_over names.entry
        line.entry.steps.now line.entry.types.now line.entry.earlier.now line.entry.lent.now }
{
    if !short(line) {
        return Err(Refusal::TooLarge);
    }
    let names = names?;
    let steps = read_steps(names, line)?;
    if !is_fresh(&steps.list[..steps.len], line.lent) {
        return Err(Refusal::Mixed);
    }
    if !all_held(names, line.lent) {
        return Err(Refusal::NoRoom); // 3 is also a number that is not held
    }
    Ok(steps)
}
