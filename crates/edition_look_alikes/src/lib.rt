//! Names that a reader may take for one another: those that the Unicode Standard calls a compatibility caseless match, and those with characters
//! that are not seen. A name is any bytes; of one that isn't UTF-8 nothing is said.
#![tactic(auto)]

ghost use Rattle.std.specs.Prelude.{◌≡◌, ◌++◌, ◌+◌, ◌<◌, length, drop, get_or, [], chars, IfOk, OnOk};
ghost use Rattle.std.specs.List.{list_any};
ghost use Rattle.rules.specs.Names.{table_of, names_of};
ghost use Rattle.edition_look_alikes.specs.Alike.{alike, isUnseen, hasUnseen, alikeTo, alikePairs, withUnseen};

use caseless::compatibility_caseless_match_str;
use names::inner::count;
use names::tables::NameTable;
use std::alloc::{AllocError, Global};
use std::str::from_utf8;
use ucd_category::{GeneralCategory, GeneralCategoryGroup};
use ucd_derived::is_default_ignorable_code_point;

/// The numbers of two names, the smaller first.
#[derive(Clone, Copy, Debug, PartialEq, Eq)]
pub struct Pair {
    pub first: u32,
    pub second: u32,
}

/// Do two names look alike: is each UTF-8, and are they a compatibility caseless match (The Unicode Standard, D146)? So are `Größe` composed and decomposed,
/// `ﬁne` and `Fine`.
pub fn is_alike(alloc: Global, a: &[u8], b: &[u8]) -> Result<bool, AllocError>
    ensures { IfOk result (λ yes. yes ≡ alike a.now b.now) }
{
    match (from_utf8(a), from_utf8(b)) {
        (Ok(a), Ok(b)) => compatibility_caseless_match_str(alloc, a, b),
        _ => Ok(false),
    }
}

/// Is a character mostly not seen: is its general category a blank's or another that has no shape (C or Z), is it one that a display may leave out
/// (Default_Ignorable_Code_Point), or is it the braille pattern without a dot?
#[tactic(auto, unfolding(crate::specs::Alike::isUnseen))]
fn is_unseen(c: char) -> bool
    ensures { result ≡ isUnseen c }
{
    let category = GeneralCategory::for_char(c);
    GeneralCategoryGroup::Other.contains(category)
        || GeneralCategoryGroup::Separator.contains(category)
        || is_default_ignorable_code_point(c)
        || c == '\u{2800}'
}

fn any_unseen(text: &str) -> bool
    ensures { result ≡ list_any isUnseen (chars text.now) }
{
    text.chars().any(is_unseen)
}

/// Has a name, if it is UTF-8, a character that is mostly not seen: a blank, a control character, a zero-width joiner, a soft hyphen, a variation selector, one
/// that Unicode leaves to private use or hasn't assigned?
pub fn has_unseen(name: &[u8]) -> bool
    ensures { result ≡ hasUnseen name.now }
{
    match from_utf8(name) {
        Ok(text) => any_unseen(text),
        Err(_) => false,
    }
}

// Adds the pairs of a name with the later ones.
fn push_pairs(
    alloc: Global,
    pairs: &mut Vec<Pair>,
    names: NameTable,
    first: u32,
) -> Result<(), AllocError>
    requires { first < get_or names.table.now 0 0 }
    ensures { OnOk result (pairs.new.items ≡ pairs.old.items
        ++ alikeTo first (get_or (names_of (table_of names.entry.pool.now names.entry.table.now)) first []) (first + 1)
        (drop (first + 1) (names_of (table_of names.entry.pool.now names.entry.table.now)))) }
{
    let name = names.name(first);
    for second in first + 1..count(names.table) {
        if is_alike(alloc, name, names.name(second))? {
            pairs.push(Pair { first, second })?;
        }
    }
    Ok(())
}

/// The pairs of names in a table that look alike, by their numbers, in order.
pub fn alike_pairs(alloc: Global, names: NameTable) -> Result<Vec<Pair>, AllocError>
    ensures { IfOk result (λ v. v.items ≡ alikePairs 0 (names_of (table_of names.entry.pool.now names.entry.table.now))) }
{
    let mut pairs = Vec::new(alloc);
    for first in 0..count(names.table) {
        push_pairs(alloc, &mut pairs, names, first)?;
    }
    Ok(pairs)
}

/// The numbers of the names in a table that have a character that is mostly not seen, in order.
pub fn with_unseen(alloc: Global, names: NameTable) -> Result<Vec<u32>, AllocError>
    ensures { IfOk result (λ v. v.items ≡ withUnseen 0 (names_of (table_of names.entry.pool.now names.entry.table.now))) }
{
    let mut numbers = Vec::new(alloc);
    for number in 0..count(names.table) {
        if has_unseen(names.name(number)) {
            numbers.push(number)?;
        }
    }
    Ok(numbers)
}
