//! The public call that checks a whole calculation line.
#![tactic(auto)]

pub mod inner;
pub mod theorems;

ghost use Rattle.std.specs.Prelude.{◌≡◌};
ghost use Rattle.rules.specs.Lines.{checkLineCall};
ghost use Rattle.records_buffers.specs.Told.{writtenAs};

use inner::make_line;
use lines_entry::inner::given::Line;
use lines_entry::inner::room;
use names::tables::NameTable;
use records_buffers::inner::hand_over;
use rules::Refusal;

/// The type of the line's last step, at the front of the result buffer; the work buffer is left all zero. `lines` has the places of the earlier
/// lines' types, `names` the numbers that are lent for the steps' variables.
pub fn check_line(
    pool: &[u8],
    table: &[u32],
    steps: &[u32],
    types: &[u32],
    lines: &[u32],
    names: &[u32],
    res: &mut [u32],
    work: &mut [u32],
) -> Result<usize, Refusal>
    ensures { writtenAs result res.new work.new ≡ checkLineCall pool.now table.now steps.now types.now lines.now names.now res.old work.old }
{
    if !room(pool, table, steps, names, res, work) {
        return Err(Refusal::ShortBuffer);
    }
    let line = Line {
        steps,
        types,
        earlier: lines,
        lent: names,
    };
    let made = make_line(NameTable::new(pool, table), line, work);
    hand_over(made, res, work)
}
