//! A ceiling on the rounds that solving a set takes, to set a watchdog by.
#![tactic(auto)]

ghost use Rattle.std.specs.Prelude.{◌≡◌};
ghost use Rattle.rules.specs.Ceiling.{ceilingCall};
ghost use Rattle.rules.specs.Refusals.{toldBy};
ghost use Rattle.solve_ceiling.specs.Told.{toldMost};

use inner::{distinct, most};
use records::is_set;
use rules::Refusal;

pub mod inner;
pub mod theorems;

/// How many distinct variables a set has, which binding rounds don't pass, and what all rounds together don't pass.
#[derive(Clone, Copy)]
pub struct Most {
    pub variables: u32,
    pub rounds: u32,
}

/// The ceiling on the rounds of solving this set, which may be refused there. Refused as `is_set` refuses.
pub fn ceiling(pool: &[u8], table: &[u32], words: &[u32]) -> Result<Most, Refusal>
    ensures { toldBy toldMost result ≡ ceilingCall pool.now table.now words.now }
{
    is_set(pool, table, words)?;
    Ok(most(distinct(words, words.len() / 4)))
}
