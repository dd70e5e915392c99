// A step is read from its four words.
ghost use Rattle.std.specs.Prelude.{◌≡◌, List, ℕ, ◌/◌, ◌≤◌, ◌<◌, length, map};
ghost use Rattle.rules.specs.Names.{Table, table_of};
ghost use Rattle.rules.specs.Writing.{Rec};
ghost use Rattle.rules.specs.Calls.{type_at};
ghost use Rattle.rules.specs.Refusals.{toldBy};
ghost use Rattle.records.specs.Views.{recs};
ghost use Rattle.records.specs.Places.{recAt};
ghost use Rattle.rules.specs.Steps.{isConstant, isReference, isRaise, operands, whole, step_of, stepGiven, lineGiven};
ghost use Rattle.lines_entry.specs.StepLists.{fourOf, plainly};
ghost use Rattle.lines_entry.specs.Told.{treeOf, stepOf, stepsOf};

use super::given::Line;
use super::steps::{Given, STEPS, Step, Steps, Two};
use exponents::Exponent;
use names::tables::NameTable;
use records::inner::type_end;
use rules::{NESTED, Refusal};
use types::Type;

// The words of a step behind its number.
#[derive(Clone, Copy)]
struct Words {
    a: u32,
    b: u32,
    c: u32,
}

impl Words {
    // The step, where the words that it doesn't use are 0: all three.
    fn plain<'a>(self, step: Step<'a>) -> Result<Step<'a>, Refusal>
        ensures { toldBy stepOf result ≡ plainly self.a self.b self.c (stepOf step.entry) }
    {
        if self.a != 0 || self.b != 0 || self.c != 0 {
            return Err(Refusal::Malformed);
        }
        Ok(step)
    }

    // A power. Its exponent is well formed; 0 is.
    fn raise<'a>(self) -> Result<Step<'a>, Refusal>
        ensures { (t : Table) (rs : List Rec) (lines : List ℕ) → toldBy stepOf result ≡ step_of t rs lines isRaise self.a self.b self.c }
    {
        if self.a != 0 {
            return Err(Refusal::Malformed);
        }
        let exponent = Exponent::from_words(self.b, self.c);
        if exponent.well_formed() {
            Ok(Step::Raise(exponent))
        } else {
            Err(Refusal::Malformed)
        }
    }
}

// The well formed type at a place.
fn type_at<'a>(names: NameTable, types: &'a [u32], at: u32) -> Result<Given<'a>, Refusal>
    requires few { length types.now ≤ 8192 }
    ensures { toldBy treeOf result ≡ type_at (table_of names.entry.pool.now names.entry.table.now) (recs types.now) at }
{
    let at = at as usize;
    match type_end(names, 0, types, at, NESTED) {
        Some(_) => {
            let of = Type { words: types, at };
            Ok(Given { of })
        }
        None => Err(Refusal::Malformed),
    }
}

impl<'a> Line<'a> {
    // A constant: its type is closed.
    fn constant(self, names: NameTable, words: Words) -> Result<Step<'a>, Refusal>
        requires few { length self.types.now ≤ 8192 }
        ensures { let t = table_of names.entry.pool.now names.entry.table.now in
            toldBy stepOf result ≡ step_of t (recs self.entry.types.now) self.entry.earlier.now isConstant words.a words.b words.c }
    {
        if words.b != 0 || words.c != 0 {
            return Err(Refusal::Malformed);
        }
        let given = type_at(names, self.types, words.a)?;
        if given.of.is_closed() {
            Ok(Step::Constant(given))
        } else {
            Err(Refusal::Malformed)
        }
    }

    // A reference to an earlier line.
    fn reference(self, names: NameTable, words: Words) -> Result<Step<'a>, Refusal>
        requires few { length self.types.now ≤ 8192 }
        ensures { let t = table_of names.entry.pool.now names.entry.table.now in
            toldBy stepOf result ≡ step_of t (recs self.entry.types.now) self.entry.earlier.now isReference words.a words.b words.c }
    {
        if words.b != 0 || words.c != 0 {
            return Err(Refusal::Malformed);
        }
        let i = words.a as usize;
        if self.earlier.len() <= i {
            return Err(Refusal::Malformed);
        }
        let given = type_at(names, self.types, self.earlier[i])?;
        Ok(Step::Reference(given))
    }

    // Step i, if it is well formed (1).
    fn step(self, names: NameTable, i: usize) -> Result<Step<'a>, Refusal>
        requires there { i < length self.steps.now / 4 }
        requires few { length self.types.now ≤ 8192 }
        ensures { let t = table_of names.entry.pool.now names.entry.table.now in
            toldBy stepOf result ≡ stepGiven t (recs self.entry.types.now) self.entry.earlier.now (fourOf (recAt self.entry.steps.now i)) }
    {
        let at = i * 4;
        let words = Words {
            a: self.steps[at + 1],
            b: self.steps[at + 2],
            c: self.steps[at + 3],
        };
        match self.steps[at] {
            1 => self.constant(names, words),
            2 => self.reference(names, words),
            3 => words.plain(Step::Join(Two::Adds)),
            4 => words.plain(Step::Join(Two::Subtracts)),
            5 => words.plain(Step::Join(Two::Multiplies)),
            6 => words.plain(Step::Join(Two::Divides)),
            7 => words.raise(),
            8 => words.plain(Step::Join(Two::Compares)),
            9 => words.plain(Step::Choose),
            _ => Err(Refusal::Malformed),
        }
    }
}

impl<'a> Step<'a> {
    /// How many operands it takes.
    pub fn operands(&self) -> usize
        ensures { result ≡ operands (stepOf self.now) }
    {
        match self {
            Step::Constant(_) | Step::Reference(_) => 0,
            Step::Raise(_) => 1,
            Step::Join(_) => 2,
            Step::Choose => 3,
        }
    }
}

// Does each step find its operands, and is one type left?
fn is_whole(steps: &[Step]) -> bool
    ensures { result ≡ whole 0 (map stepOf steps.now) }
{
    let mut n: usize = 0;
    for step in steps {
        let taken = step.operands();
        if n < taken {
            return false;
        }
        n = n - taken + 1;
    }
    n == 1
}

/// The steps of a line that is well formed (1).
pub fn read_steps<'a>(names: NameTable, line: Line<'a>) -> Result<Steps<'a>, Refusal>
    requires short { length line.steps.now ≤ 512 }
    requires few { length line.types.now ≤ 8192 }
    ensures { let t = table_of names.entry.pool.now names.entry.table.now in
        toldBy stepsOf result ≡ lineGiven t line.entry.steps.now line.entry.types.now line.entry.earlier.now }
{
    if line.steps.len() % 4 != 0 {
        return Err(Refusal::Malformed);
    }
    if line.types.len() % 4 != 0 {
        return Err(Refusal::Malformed);
    }
    let len = line.steps.len() / 4;
    let mut list = [Step::Choose; STEPS];
    for i in 0..len {
        let step = line.step(names, i)?;
        list[i] = step;
    }
    let steps = Steps { list, len };
    if is_whole(&steps.list[..len]) {
        Ok(steps)
    } else {
        Err(Refusal::Malformed)
    }
}
