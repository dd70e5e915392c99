//! The call that says which lines conflict.
use crate::engines::{RESULT_BEFORE, WORK_BEFORE};
use crate::sets::Table;
use anyhow::Result;
use solve_conflict::conflict;
use std::alloc::Global;

/// Are these the places of the lines that conflict (none where no lines do), with the rest of the result buffer as before, and the work buffer all zero?
pub fn conflicts_as(alloc: Global, table: &Table, places: &[u32], words: &[u32]) -> Result<bool> {
    let mut result = vec![in alloc; RESULT_BEFORE; 8192]?;
    let mut work = vec![in alloc; WORK_BEFORE; 16384]?;
    let many = match conflict(&table.pool, &table.ends, words, &mut result, &mut work) {
        Ok(Some(many)) => many,
        Ok(None) => 0,
        Err(_) => return Ok(false),
    };
    Ok(
        many == places.len()
            && result.starts_with(places)
            && result.iter().skip(many).all(|w| *w == RESULT_BEFORE)
            && work.iter().all(|w| *w == 0),
    )
}
