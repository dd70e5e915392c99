// Where the names of sheets stand, and under which mark.
use edition_structs::{Place, begins_constraint};
use records::seen::view_at;
use records::{Atom, Open, View};
use std::alloc::{AllocError, Global};

/// What a name stands as: two names under different marks are never taken for one another.
#[derive(Clone, Copy, PartialEq, Eq)]
pub(crate) enum Mark {
    Variable,
    Parameter,
    Base,
    Struct,
    Field,
}

/// Where a name stands under a mark, first in a sheet.
#[derive(Clone, Copy)]
pub(crate) struct Standing {
    pub mark: Mark,
    pub place: Place,
}

/// Where each name stands, by its number: sheet by sheet, line by line.
#[derive(Drop)]
pub(crate) struct Places {
    names: Vec<Vec<Standing>>,
}

impl Places {
    /// So many names, which stand nowhere yet.
    pub(crate) fn new(alloc: Global, count: usize) -> Result<Places, AllocError> {
        let mut names = Vec::new(alloc);
        for _ in 0..count {
            names.push(Vec::new(alloc))?;
        }
        Ok(Places { names })
    }

    /// Where a name stands.
    pub(crate) fn of(&self, name: u32) -> &[Standing] {
        match self.names.get(name as usize) {
            Some(standings) => standings,
            None => &[],
        }
    }

    /// Adds those of a sheet's records.
    pub(crate) fn add_sheet(&mut self, sheet: usize, records: &[u32]) -> Result<(), AllocError> {
        let mut constraint = 0usize;
        for at in 0..records.len() / 4 {
            let view = view_at(records, at);
            constraint = constraint.saturating_add(begins_constraint(view));
            if let Some((name, mark)) = marked(view) {
                let place = Place { sheet, constraint };
                self.add(name, Standing { mark, place })?;
            }
        }
        Ok(())
    }

    // Adds where a name stands, if it is the first place in its sheet under its mark.
    fn add(&mut self, name: u32, standing: Standing) -> Result<(), AllocError> {
        let Some(standings) = self.names.get_mut(name as usize) else {
            return Ok(());
        };
        for held in standings.iter() {
            if held.mark == standing.mark && held.place.sheet == standing.place.sheet {
                return Ok(());
            }
        }
        standings.push(standing)?;
        Ok(())
    }
}

// The name that a record has, and what it stands as.
fn marked(view: View) -> Option<(u32, Mark)> {
    match view {
        View::Opened(open) | View::Factor(Atom::Free(open), _, _) => open_marked(open),
        View::Factor(Atom::Base(name), _, _) => Some((name, Mark::Base)),
        View::Struct(name, _, _) => Some((name, Mark::Struct)),
        View::Field(name) | View::HasField(name) => Some((name, Mark::Field)),
        _ => None,
    }
}

fn open_marked(open: Open) -> Option<(u32, Mark)> {
    match open {
        Open::Var(name) => Some((name, Mark::Variable)),
        Open::Par(name) => Some((name, Mark::Parameter)),
        Open::Quant(_) => None,
    }
}

// Does a name stand under a mark?
fn stands_under(standings: &[Standing], mark: Mark) -> bool {
    for standing in standings {
        if standing.mark == mark {
            return true;
        }
    }
    false
}

/// Do two names stand under one mark somewhere?
pub(crate) fn share_mark(a: &[Standing], b: &[Standing]) -> bool {
    for standing in a {
        if stands_under(b, standing.mark) {
            return true;
        }
    }
    false
}

/// Where a name stands first in each sheet, under marks under which another stands too.
pub(crate) fn shared_places(
    alloc: Global,
    name: &[Standing],
    other: &[Standing],
) -> Result<Vec<Place>, AllocError> {
    let mut places = Vec::new(alloc);
    let mut last = None;
    for standing in name {
        let place = standing.place;
        if last != Some(place.sheet) && stands_under(other, standing.mark) {
            places.push(place)?;
            last = Some(place.sheet);
        }
    }
    Ok(places)
}
