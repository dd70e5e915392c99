// The structs that the rules tell apart, and those of them whose fields differ.
ghost use Rattle.std.specs.Prelude.{◌≡◌, ◌==◌, [], ◌∷◌, ◌++◌, List, map, IfOk, OnOk};
ghost use Rattle.std.specs.List.{list_any};
ghost use Rattle.std.specs.Option.{option_map};
ghost use Rattle.edition_structs.specs.Structs.{Struct};
ghost use Rattle.edition_structs.specs.Compared.{firstAlike, isTold, more, differingOf};
ghost use Rattle.edition_structs.specs.Told.{told, Firsts};

use crate::Differing;
use crate::written::Written;
use std::alloc::{AllocError, Global};
use std::collections::BTreeMap;

// The first struct of the same name and arguments; where there is none, this one is the first.
fn first_alike<'a>(
    firsts: &mut BTreeMap<(u32, &'a [u32]), Written<'a>>,
    written: Written<'a>,
) -> Result<Option<Written<'a>>, AllocError>
    ensures { IfOk result (λ r. (ss : List Struct) → Firsts firsts.old ss
        → (option_map told r ≡ firstAlike (told written.entry) ss) × Firsts firsts.new (ss ++ told written.entry ∷ [])) }
{
    let key = (written.name, written.arguments);
    if let Some(first) = firsts.get(&key).copied() {
        return Ok(Some(first));
    }
    firsts.insert(key, written)?;
    Ok(None)
}

fn is_told(differing: &[Differing], name: u32) -> bool
    ensures { result ≡ isTold name differing.now }
{
    differing.iter().any(|d| d.name == name)
}

// Adds a struct whose fields aren't those of the first that is alike, unless its name is told.
fn tell(
    differing: &mut Vec<Differing>,
    first: Option<Written>,
    other: Written,
) -> Result<(), AllocError>
    ensures { OnOk result (differing.new.items
        ≡ differing.old.items ++ more differing.old.items (told other.entry) (option_map told first.entry)) }
{
    let Some(first) = first else {
        return Ok(());
    };
    if first.fields == other.fields || is_told(differing, other.name) {
        return Ok(());
    }
    differing.push(Differing {
        name: other.name,
        first: first.place,
        other: other.place,
    })?;
    Ok(())
}

/// What is told of structs.
pub(crate) fn differing_among(
    alloc: Global,
    written: &[Written],
) -> Result<Vec<Differing>, AllocError>
    ensures { IfOk result (λ v. v.items ≡ differingOf (map told written.now)) }
{
    let mut firsts = BTreeMap::new(alloc);
    let mut differing = Vec::new(alloc);
    for (k, other) in written.iter().enumerate() {
        let first = first_alike(&mut firsts, *other)?;
        tell(&mut differing, first, *other)?;
    }
    Ok(differing)
}
