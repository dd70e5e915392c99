//! Each function reads on and at once does what is read, until the first refusal; after that it only reads on.
pub mod leaves;
pub mod naming;

ghost use Rattle.std.specs.Prelude.{◌≡◌, ◌+◌, ◌≤◌, ◌<◌};
ghost use Rattle.text_names.specs.Stands.{Few, countOf, place_of, Above, headPut};

use records::View;
use records::inner::put_record;
use rules::{RECORDS, Refusal};
use text_grammar::inner::Point;

/// What a sheet has come to: its new names and its records so far.
#[derive(Clone, Copy)]
pub struct Tally {
    pub names: usize,
    pub records: usize,
}

/// A refusal, and the place in the line that is told, counted from 0.
#[derive(Clone, Copy)]
pub struct At {
    pub why: Refusal,
    pub at: usize,
}

/// How a sheet stands: what was counted so far, or the first refusal.
pub type Stand = Result<Tally, At>;

/// Where a line is read to, and how the sheet stands then.
#[derive(Clone, Copy)]
pub struct Reached {
    pub at: Point,
    pub stand: Stand,
}

/// The place of a point; behind a type nested 65 deep, and where the line is refused, it isn't asked for.
pub fn place_of(p: Point) -> usize
    ensures { result ≡ place_of p }
{
    match p {
        Point::At(i) => i,
        Point::Deep | Point::Bad(_) => 0,
    }
}

/// k records more, counted at a place: 8 for the first record past 2,048.
pub fn count(k: usize, at: usize, s: Stand) -> Stand
    requires small { k ≤ 2048 }
    requires few { Few s }
    ensures { result ≡ countOf k at s }
{
    let tally = s?;
    let records = tally.records + k;
    if RECORDS < records {
        return Err(At {
            why: Refusal::TooLarge,
            at,
        });
    }
    Ok(Tally {
        names: tally.names,
        records,
    })
}

/// Writes the record v, counted in s, before its parts, which went on to r.
pub fn put_head(v: View, s: Stand, r: Stand, dst: &mut [u32])
    requires { Above s r }
    ensures { dst.new ≡ headPut v s r dst.old }
{
    let Ok(before) = s else {
        return;
    };
    let Ok(behind) = r else {
        return;
    };
    put_record(dst, before.records, v, behind.records - before.records);
}
