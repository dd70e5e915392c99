//! The calls that only look at lists of records.
ghost use Rattle.std.specs.Prelude.{◌≡◌, eqb};
ghost use Rattle.rules.specs.Calls.{setCall, typeCall, schemeCall, bindingsCall, containsCall, closedCall, variablesCall};
ghost use Rattle.rules.specs.Calls as rules;
ghost use Rattle.rules.specs.Ceiling.{ceilingCall};
ghost use Rattle.rules.specs.Numbers.{refusalIn};
ghost use Rattle.shupkelen.specs.Exports.{out, askedOut, namesOut, ceilingOut};

use calls_defined::told::{asked, counted, limited};
use library_words::{hand, number};
use queries::{closed, contains, variables};
use records::{is_bindings, is_scheme, is_set, is_type};
use records_buffers::lent;
use rules::Refusal;
use solve_ceiling::ceiling;

/// Is it a set: constraints one after another, each well formed, at most 2,048 records? Refuses with 10, 8 and 1; 0 says yes.
#[unsafe(no_mangle)]
pub extern "C" fn shupkelen_is_set(pool: &[u8], table: &[u32], words: &[u32]) -> u32
    ensures { result ≡ refusalIn (setCall pool.now table.now words.now) }
{
    number(is_set(pool, table, words))
}

/// Is it one well formed type? Refuses with 10, 8 and 1; 0 says yes.
#[unsafe(no_mangle)]
pub extern "C" fn shupkelen_is_type(pool: &[u8], table: &[u32], words: &[u32]) -> u32
    ensures { result ≡ refusalIn (typeCall pool.now table.now words.now) }
{
    number(is_type(pool, table, words))
}

/// Is it a scheme: a concrete type, or a count of quantified names, a type and bounds? Refuses with 10, 8 and 1; 0 says yes.
#[unsafe(no_mangle)]
pub extern "C" fn shupkelen_is_scheme(pool: &[u8], table: &[u32], words: &[u32]) -> u32
    ensures { result ≡ refusalIn (schemeCall pool.now table.now words.now) }
{
    number(is_scheme(pool, table, words))
}

/// Are these bindings, each of a variable to a well formed type? Refuses with 10, 8 and 1; 0 says yes.
#[unsafe(no_mangle)]
pub extern "C" fn shupkelen_is_bindings(pool: &[u8], table: &[u32], words: &[u32]) -> u32
    ensures { result ≡ refusalIn (bindingsCall pool.now table.now words.now) }
{
    number(is_bindings(pool, table, words))
}

/// Are all four buffers long enough for a call that writes records? 10 where one is not; 0 says yes.
#[unsafe(no_mangle)]
pub extern "C" fn shupkelen_lent(pool: &[u8], table: &[u32], res: &[u32], work: &[u32]) -> u32
    ensures { result ≡ refusalIn (rules.lent pool.now table.now res.now work.now) }
{
    if lent(pool, table, res, work) {
        0
    } else {
        Refusal::ShortBuffer.number()
    }
}

/// Does a type contain the variable of this name or, where parameters is 1, the parameter? Says 1 for yes and 0 for no. Refuses with 10, 8, 1 (also a
/// number that no name has) and 4 (one name is both a variable and a parameter).
#[unsafe(no_mangle)]
pub extern "C" fn shupkelen_contains(
    pool: &[u8],
    table: &[u32],
    words: &[u32],
    name: u32,
    parameters: u32,
    answer: &mut [u32],
) -> u32
    ensures { out result answer.new tt ≡ askedOut (containsCall pool.now table.now words.now name (eqb parameters 1)) answer.old }
{
    hand(
        asked(contains(pool, table, words, name, parameters == 1)),
        answer,
    )
}

/// Has a type no variable and no parameter? Says 1 for yes and 0 for no. Refuses with 10, 8, 1 and 4.
#[unsafe(no_mangle)]
pub extern "C" fn shupkelen_closed(
    pool: &[u8],
    table: &[u32],
    words: &[u32],
    answer: &mut [u32],
) -> u32
    ensures { out result answer.new tt ≡ askedOut (closedCall pool.now table.now words.now) answer.old }
{
    hand(asked(closed(pool, table, words)), answer)
}

/// The numbers of a type's variables and, where parameters is 1, of its parameters, each once, in the order of their names' bytes, at the front of `res`.
/// Says how many. Refuses with 10, 8, 1 and 4, and writes nothing then.
#[unsafe(no_mangle)]
pub extern "C" fn shupkelen_variables(
    pool: &[u8],
    table: &[u32],
    words: &[u32],
    parameters: u32,
    res: &mut [u32],
    answer: &mut [u32],
) -> u32
    ensures { out result answer.new res.new ≡ namesOut (variablesCall pool.now table.now words.now (eqb parameters 1) res.old) answer.old }
{
    hand(
        counted(variables(pool, table, words, parameters == 1, res)),
        answer,
    )
}

/// What a watchdog may count on: says how many distinct variables a set has, and the most rounds that solving it can take. Refuses with 10, 8 and 1.
#[unsafe(no_mangle)]
pub extern "C" fn shupkelen_ceiling(
    pool: &[u8],
    table: &[u32],
    set: &[u32],
    answer: &mut [u32],
) -> u32
    ensures { out result answer.new tt ≡ ceilingOut (ceilingCall pool.now table.now set.now) answer.old }
{
    hand(limited(ceiling(pool, table, set)), answer)
}
