//! The constraints of a whole line.
ghost use Rattle.rules.specs.Base.{collect};
ghost use Rattle.std.specs.Prelude.{[]};
ghost use Rattle.rules.specs.Names.{table_of, numbersOf};
ghost use Rattle.rules.specs.Writing.{writeCon};
ghost use Rattle.rules.specs.Lines.{constraints};
ghost use Rattle.types.specs.Written.{Writes};
ghost use Rattle.lines_entry.specs.Told.{stepsOf};

use super::deeds::Deed;
use super::issuing::put_deed;
use lines_entry::inner::steps::{STEPS, Steps};
use names::tables::NameTable;
use types::writer::Writer;

/// Writes what the steps issue, with the lent names for their variables. The stack of the variables not yet taken grows downward from its end.
pub fn put_line(names: NameTable, steps: &Steps, lent: &[u32], out: &mut Writer)
    ensures { let t = table_of names.entry.pool.now names.entry.table.now in
        Writes out.old out.new (collect writeCon (constraints (numbersOf t) lent.now [] (stepsOf steps.now))) }
{
    let list = &steps.list[..steps.len];
    let mut stack = [0; STEPS];
    let mut top = STEPS;
    for i in 0..list.len() {
        if lent.len() <= i {
            return;
        }
        let own = lent[i];
        let step = list[i];
        let Some(deed) = Deed::new(step, &stack[top..]) else {
            return;
        };
        put_deed(names, own, deed, out);
        top = top + step.operands() - 1;
        stack[top] = own;
    }
}
