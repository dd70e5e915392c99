// A set with its own answer put in.
use edition::model::Room;
use edition_checks::tables::Tables;
use replace_calls::replace_in_set;
use solve::{Finish, solve};

/// What putting in comes to: so many records are made; solving gives no bindings; what would be made is refused.
#[derive(Clone, Copy)]
pub(crate) enum PutIn {
    Made(usize),
    Unsolved,
    Refused,
}

/// Solves a set, and writes it with the bindings of its answer put in.
pub(crate) fn put_in(tables: &Tables, set: &[u32], room: &mut Room, made: &mut [u32]) -> PutIn {
    let solution = solve(
        &tables.pool,
        &tables.table,
        set,
        &mut room.res,
        &mut room.work,
    );
    let Ok(Finish::Solved(bindings, _)) = solution.outcome else {
        return PutIn::Unsolved;
    };
    let Some(bindings) = room.res.get(..bindings.saturating_mul(4)) else {
        return PutIn::Refused;
    };
    match replace_in_set(
        &tables.pool,
        &tables.table,
        set,
        bindings,
        made,
        &mut room.work,
    ) {
        Ok(records) => PutIn::Made(records),
        Err(_) => PutIn::Refused,
    }
}
