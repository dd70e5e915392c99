//! The public calls on schemes.
#![tactic(auto)]

pub mod inner;
pub mod theorems;

ghost use Rattle.std.specs.Prelude.{◌≡◌};
ghost use Rattle.rules.specs.Calls.{quantifyCall, generaliseCall, instantiateCall};
ghost use Rattle.records_buffers.specs.Told.{writtenAs};

use inner::generalising::make_generalised;
use inner::instantiated::make_instantiated;
use inner::making::make_quantified;
use names::tables::NameTable;
use records_buffers::inner::hand_over;
use records_buffers::lent;
use rules::Refusal;

/// The type and bounds with the handed names quantified, as a scheme in the result buffer; the work buffer is left all zero.
pub fn quantify(
    pool: &[u8],
    table: &[u32],
    words: &[u32],
    bounds: &[u32],
    names: &[u32],
    res: &mut [u32],
    work: &mut [u32],
) -> Result<usize, Refusal>
    ensures { writtenAs result res.new work.new ≡ quantifyCall pool.now table.now words.now bounds.now names.now res.old work.old }
{
    if !lent(pool, table, res, work) {
        return Err(Refusal::ShortBuffer);
    }
    let tested = NameTable::new(pool, table);
    let made = make_quantified(tested, words, bounds, names, work);
    hand_over(made, res, work)
}

/// The scheme with the bounds generalised: a concrete type's names are quantified, another scheme stays; the work buffer is left all zero.
pub fn generalise(
    pool: &[u8],
    table: &[u32],
    given: &[u32],
    bounds: &[u32],
    res: &mut [u32],
    work: &mut [u32],
) -> Result<usize, Refusal>
    ensures { writtenAs result res.new work.new ≡ generaliseCall pool.now table.now given.now bounds.now res.old work.old }
{
    if !lent(pool, table, res, work) {
        return Err(Refusal::ShortBuffer);
    }
    let tested = NameTable::new(pool, table);
    let made = make_generalised(tested, given, bounds, work);
    hand_over(made, res, work)
}

/// The type and bounds of a scheme with the handed names put back, in the result buffer; the work buffer is left all zero.
pub fn instantiate(
    pool: &[u8],
    table: &[u32],
    given: &[u32],
    names: &[u32],
    res: &mut [u32],
    work: &mut [u32],
) -> Result<usize, Refusal>
    ensures { writtenAs result res.new work.new ≡ instantiateCall pool.now table.now given.now names.now res.old work.old }
{
    if !lent(pool, table, res, work) {
        return Err(Refusal::ShortBuffer);
    }
    let tested = NameTable::new(pool, table);
    let made = make_instantiated(tested, given, names, work);
    hand_over(made, res, work)
}
