// The structs of sheets, read from their records.
ghost use Rattle.std.specs.Prelude.{◌≡◌, ◌+◌, ◌*◌, ◌/◌, ◌<◌, ◌≤◌, ◌++◌, length, map, OnOk, IfOk, Option};
ghost use Rattle.records.specs.Views.{viewAt};
ghost use Rattle.edition_structs.specs.Structs.{records as recordsOf, behind, past, between, begun, structFrom, structsTo, structsFrom};
ghost use Rattle.edition_structs.specs.Told.{told, told_of};

use crate::{Place, begins_constraint};
use records::View;
use records::seen::{length_at, view_at};
use std::alloc::{AllocError, Global};

/// A struct: its name, the records of its arguments and of its fields, and where it is written.
#[derive(Clone, Copy)]
pub(crate) struct Written<'a> {
    pub name: u32,
    pub arguments: &'a [u32],
    pub fields: &'a [u32],
    pub place: Place,
}

// The place behind the part at a place.
fn place_behind(records: &[u32], at: usize) -> usize
    requires { at ≤ recordsOf records.now }
    ensures { result ≡ behind records.now at }
{
    let left = records.len() / 4 - at;
    at + usize::min(length_at(records, at), left)
}

// The place behind n parts.
#[tactic(auto, using(crate::proofs::Steps::past_none, crate::proofs::Steps::past_next))]
fn place_past(records: &[u32], at: usize, n: u32) -> usize
    requires { at ≤ recordsOf records.now }
    ensures is { result ≡ past records.now at n }
    ensures within { result ≤ recordsOf records.now }
{
    let mut end = at;
    for _ in 0..n {
        end = place_behind(records, end);
    }
    end
}

// The words of the records from a place to an end.
#[tactic(auto, unfolding(crate::specs::Structs::between))]
fn words_between(records: &[u32], at: usize, end: usize) -> &[u32]
    requires at_in { at ≤ recordsOf records.now }
    requires end_in { end ≤ recordsOf records.now }
    ensures { result.now ≡ between records.now at end }
{
    if end < at {
        return &[];
    }
    &records[at * 4..end * 4]
}

// The struct that the record at a place begins.
#[tactic(auto, unfolding(crate::specs::Structs::structFrom))]
fn struct_at(records: &[u32], at: usize, place: Place) -> Option<Written>
    requires at_in { at < recordsOf records.now }
    requires counted { place.constraint ≡ begun records.now at }
    ensures { told_of result ≡ structFrom place.sheet records.now at (viewAt records.now at) }
{
    let View::Struct(name, arguments, _) = view_at(records, at) else {
        return None;
    };
    let first = at + 1;
    let behind = place_past(records, first, arguments);
    Some(Written {
        name,
        arguments: words_between(records, first, behind),
        fields: words_between(records, behind, place_behind(records, at)),
        place,
    })
}

// Adds the struct that the record at a place begins.
#[tactic(auto, using(crate::proofs::Steps::pushed))]
fn push_struct<'a>(
    written: &mut Vec<Written<'a>>,
    records: &'a [u32],
    at: usize,
    place: Place,
) -> Result<(), AllocError>
    requires at_in { at < recordsOf records.now }
    requires counted { place.constraint ≡ begun records.now at }
    ensures { OnOk result (map told written.new.items
        ≡ map told written.old.items ++ structFrom place.sheet records.now at (viewAt records.now at)) }
{
    if let Some(found) = struct_at(records, at, place) {
        written.push(found)?;
    }
    Ok(())
}

// Adds the structs of a sheet.
#[tactic(auto, using(crate::proofs::Steps::run))]
fn push_structs<'a>(
    written: &mut Vec<Written<'a>>,
    sheet: usize,
    records: &'a [u32],
) -> Result<(), AllocError>
    ensures { OnOk result (map told written.new.items
        ≡ map told written.old.items ++ structsTo sheet records.now (recordsOf records.now)) }
{
    let mut constraint = 0;
    for at in 0..records.len() / 4 {
        push_struct(written, records, at, Place { sheet, constraint })?;
        constraint += begins_constraint(view_at(records, at));
    }
    Ok(())
}

/// The structs of sheets.
pub(crate) fn structs_of<'a>(
    alloc: Global,
    sheets: &[&'a [u32]],
) -> Result<Vec<Written<'a>>, AllocError>
    ensures { IfOk result (λ v. map told v.items ≡ structsFrom 0 (map (λ s. s.now) sheets.now)) }
{
    let mut written = Vec::new(alloc);
    for (sheet, records) in sheets.iter().enumerate() {
        push_structs(&mut written, sheet, records)?;
    }
    Ok(written)
}
