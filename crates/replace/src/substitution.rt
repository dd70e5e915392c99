//! What open names become.
ghost use Rattle.replace.specs.Substitutions.{ALook, one-look};

use names::tables::NameTable;

/// What open names become: a table of places, one word for each name, and the words in which the types stand.
/// The word of variable x is at x, of parameter x at 256 + x, of quantified variable i at 512 + i; past the table's end words count as 0.
/// 0: the name stays. Any other word is one more than the place of its type, in records.
#[derive(Clone, Copy)]
pub struct Substitution<'a> {
    pub names: NameTable<'a>,
    pub places: &'a [u32],
    pub types: &'a [u32],
    pub ghost lent: { ALook names.pool.now names.table.now places.now types.now } by { one-look names.pool.now names.table.now places.now types.now },
}
