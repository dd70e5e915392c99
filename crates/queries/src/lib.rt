//! Contains, closed and variables of types, and the check for refusal 4.
#![tactic(auto)]

ghost use Rattle.std.specs.Prelude.{◌≡◌};
ghost use Rattle.rules.specs.Calls.{containsCall, closedCall, variablesCall};
ghost use Rattle.rules.specs.Refusals.{told};
ghost use Rattle.queries.specs.Told.{listedAs, kind_of};

use inner::{is_unmixed, list_names, none_open, occurs};
use names::tables::NameTable;
use records::is_type;
use rules::{RECORD_WORDS, Refusal};

pub mod inner;
pub mod name_set;
pub mod theorems;

/// Which names are asked for: those of variables, of parameters, or of both.
#[derive(Clone, Copy)]
pub enum Kind {
    Variables,
    Parameters,
    Both,
}

fn kind_of(parameters: bool) -> Kind
    ensures { result ≡ kind_of parameters }
{
    if parameters {
        Kind::Both
    } else {
        Kind::Variables
    }
}

/// Does the type contain a variable of that name or, where asked, a parameter?
/// Refused: 10, 8, 1 as `is_type` is; 1 where x is not the number of a name of the table; 4 where a name is a variable and a parameter.
pub fn contains(
    pool: &[u8],
    table: &[u32],
    words: &[u32],
    x: u32,
    parameters: bool,
) -> Result<bool, Refusal>
    ensures { told result ≡ containsCall pool.now table.now words.now x parameters }
{
    is_type(pool, table, words)?;
    let names = NameTable { pool, table };
    if !names.is_held(x) {
        return Err(Refusal::Malformed);
    }
    let n = words.len() / 4;
    if !is_unmixed(words, 0, n) {
        return Err(Refusal::Mixed);
    }
    Ok(occurs(words, 0, n, kind_of(parameters), x))
}

/// Does the type hold no variable and no parameter?
/// Refused: 10, 8, 1 as `is_type` is; 4 where a name is a variable and a parameter.
pub fn closed(pool: &[u8], table: &[u32], words: &[u32]) -> Result<bool, Refusal>
    ensures { told result ≡ closedCall pool.now table.now words.now }
{
    is_type(pool, table, words)?;
    let n = words.len() / 4;
    if !is_unmixed(words, 0, n) {
        return Err(Refusal::Mixed);
    }
    Ok(none_open(words, 0, n))
}

/// Writes the names of the type's variables and, where asked, of its parameters, sorted by name bytes, once each, to the front of the result buffer, and
/// answers how many they are. Refused: 10 where a buffer is short; 8, 1 as `is_type` is; 4 where a name is a variable and a parameter. A refusal
/// leaves the result buffer as it is.
pub fn variables(
    pool: &[u8],
    table: &[u32],
    words: &[u32],
    parameters: bool,
    res: &mut [u32],
) -> Result<usize, Refusal>
    ensures { listedAs result res.new ≡ variablesCall pool.now table.now words.now parameters res.old }
{
    if res.len() < RECORD_WORDS {
        return Err(Refusal::ShortBuffer);
    }
    is_type(pool, table, words)?;
    let names = NameTable { pool, table };
    let n = words.len() / 4;
    if !is_unmixed(words, 0, n) {
        return Err(Refusal::Mixed);
    }
    Ok(list_names(names, words, 0, n, kind_of(parameters), res))
}
