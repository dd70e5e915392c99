//! Structs that are written with other fields under one name and the same arguments. The rules look at these two alone, and take such structs for one type;
//! no verdict rests on what is told here.
#![tactic(auto)]

mod firsts;
mod written;

ghost use Rattle.std.specs.Prelude.{◌≡◌, ◌≤◌, IfOk, map};
ghost use Rattle.edition_structs.specs.Structs.{begins, structsFrom};
ghost use Rattle.edition_structs.specs.Compared.{differingOf, Complete, Sound};

use firsts::differing_among;
use records::View;
use std::alloc::{AllocError, Global};
use written::structs_of;

/// Where something stands: in which sheet, and behind how many beginnings of constraints there.
#[derive(Clone, Copy, Debug, PartialEq, Eq)]
pub struct Place {
    pub sheet: usize,
    pub constraint: usize,
}

/// Two structs of one name and the same arguments whose fields differ: the first, and the first that differs from it.
#[derive(Clone, Copy, Debug, PartialEq, Eq)]
pub struct Differing {
    pub name: u32,
    pub first: Place,
    pub other: Place,
}

/// 1 for a record that begins a constraint, else 0.
pub fn begins_constraint(view: View) -> usize
    ensures is { result ≡ begins view }
    ensures within { result ≤ 1 }
{
    match view {
        View::Equal | View::IsDim | View::IsScalar | View::HasField(_) => 1,
        _ => 0,
    }
}

/// Which structs of sheets, each its records, are written with other fields under one name and the same arguments: of each such name the first struct that
/// differs from the first with its arguments, in the order in which they are met. Any words are taken. Fails by memory alone.
pub fn differing_structs(alloc: Global, sheets: &[&[u32]]) -> Result<Vec<Differing>, AllocError>
    ensures is { IfOk result (λ v. v.items ≡ differingOf (structsFrom 0 (map (λ s. s.now) sheets.now))) }
    ensures complete { IfOk result (λ v. Complete (structsFrom 0 (map (λ s. s.now) sheets.now)) v.items) }
    ensures sound { IfOk result (λ v. Sound (structsFrom 0 (map (λ s. s.now) sheets.now)) v.items) }
{
    let written = structs_of(alloc, sheets)?;
    differing_among(alloc, &written)
}
