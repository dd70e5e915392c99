//! The lent buffers of a call that writes records: are they long enough, and how an answer is handed over.
#![tactic(auto)]

pub mod inner;
pub mod theorems;

ghost use Rattle.std.specs.Prelude.{◌≡◌};
ghost use Rattle.rules.specs.Base.{need};
ghost use Rattle.rules.specs.Calls.{lent};

use rules::{POOL_BYTES, RECORD_WORDS, TABLE_WORDS, WORK_WORDS};

/// Is everything that is lent long enough? If not, a call that writes records answers 10 and touches neither buffer.
pub fn lent(pool: &[u8], table: &[u32], res: &[u32], work: &[u32]) -> bool
    ensures { need result 10 ≡ lent pool.now table.now res.now work.now }
{
    if pool.len() < POOL_BYTES || table.len() < TABLE_WORDS || res.len() < RECORD_WORDS {
        return false;
    }
    WORK_WORDS <= work.len()
}
