//! What each engine answers, in one form.
use crate::sets::Table;
use engine::{Eliminated, eliminate};
use rules::Refusal;
use solve::{Finish, solve};
use std::alloc::{AllocError, Global};

/// What the words of the result buffer are before a call.
pub const RESULT_BEFORE: u32 = 0xaaaaaaaa;

/// What the words of the work buffer are before a call.
pub const WORK_BEFORE: u32 = 0x55555555;

/// The number of an outcome (0, 5, or the refusal's), the records of bindings or of what remains, and those of bounds; and what the buffers hold then.
#[derive(Drop, PartialEq)]
pub struct Outcome {
    pub number: u32,
    pub records: usize,
    pub bounds: usize,
    pub result: Vec<u32>,
    pub work: Vec<u32>,
}

/// The solver.
pub fn solved(alloc: Global, table: &Table, words: &[u32]) -> Result<Outcome, AllocError> {
    let mut result = vec![in alloc; RESULT_BEFORE; 8192]?;
    let mut work = vec![in alloc; WORK_BEFORE; 16384]?;
    let solution = solve(&table.pool, &table.ends, words, &mut result, &mut work);
    let (number, records, bounds) = match solution.outcome {
        Ok(Finish::Solved(bindings, bounds)) => (0, bindings, bounds),
        Ok(Finish::Unsolved(remaining)) => (Refusal::Unsolved.number(), remaining, 0),
        Err(why) => (why.number(), 0, 0),
    };
    Ok(Outcome {
        number,
        records,
        bounds,
        result,
        work,
    })
}

/// The second engine.
pub fn eliminated(alloc: Global, table: &Table, words: &[u32]) -> Result<Outcome, AllocError> {
    let mut result = vec![in alloc; RESULT_BEFORE; 8192]?;
    let mut work = vec![in alloc; WORK_BEFORE; 16384]?;
    let answer = eliminate(&table.pool, &table.ends, words, &mut result, &mut work);
    let (number, records) = match answer {
        Ok(Eliminated::Bound(bindings)) => (0, bindings),
        Ok(Eliminated::Left(remaining)) => (Refusal::Unsolved.number(), remaining),
        Err(why) => (why.number(), 0),
    };
    Ok(Outcome {
        number,
        records,
        bounds: 0,
        result,
        work,
    })
}
