//! Names that are read, and entered where they stand.
ghost use Rattle.std.specs.Prelude.{◌≡◌, List, ℕ, ◌≤◌, Ok, length};
ghost use Rattle.rules.specs.Grammar.{name};
ghost use Rattle.rules.specs.Names.{Bytes};
ghost use Rattle.rules.specs.TextReading.{newIn, enterName, named};
ghost use Rattle.laws.specs.NameTable.{Good};
ghost use Rattle.names.specs.Told.{entered};
ghost use Rattle.text_grammar.specs.declared.inner.Point.TheVariants as point;
ghost use Rattle.text_names.specs.Effects.{lent, Room, Ready, Done};
ghost use Rattle.text_names.specs.Naming.{standAfter, numberTold, Front, NumberTold};

use super::{At, Reached, Stand, Tally};
use names::inner::enter_good;
use rules::{NAME_BYTES, Refusal, Was};
use text_grammar::inner::{Point, read_name};
use text_scan::inner::scan_name;

/// A name: where it ends, how the sheet stands then, and its number; 0 where it has none.
#[derive(Clone, Copy)]
pub struct Named {
    pub end: Reached,
    pub number: u32,
}

/// How many new names a name is.
fn new_in(was: Was) -> usize
    ensures { result ≡ newIn was }
{
    match was {
        Was::New => 1,
        Was::Known => 0,
    }
}

/// How the sheet stands when the name at a place was entered.
fn stand_after(at: usize, tally: Tally, a: Result<(u32, Was), Refusal>) -> Stand
    requires { tally.names ≤ 256 }
    ensures { result ≡ standAfter at tally.names tally.records a }
{
    match a {
        Ok((_, was)) => Ok(Tally {
            names: tally.names + new_in(was),
            records: tally.records,
        }),
        Err(why) => Err(At { why, at }),
    }
}

fn number_told(a: Result<(u32, Was), Refusal>) -> u32
    ensures { result ≡ numberTold a }
{
    match a {
        Ok((i, _)) => i,
        Err(_) => 0,
    }
}

/// Enters a name by its length and the buffer at whose front its bytes stand, as far as they go in.
fn enter_front(
    bytes: &[u8],
    long: usize,
    pool: &mut [u8],
    table: &mut [u32],
) -> Result<(u32, Was), Refusal>
    requires size { length bytes.now ≡ 48 }
    requires good { Good pool.old table.old }
    ensures { (n : Bytes) → Front bytes.now long n → entered result pool.new table.new ≡ enterName pool.old table.old n }
{
    if NAME_BYTES < long {
        return Err(Refusal::NameLength);
    }
    enter_good(pool, table, &bytes[..long])
}

/// The name at a place, entered into a sheet that goes on.
fn enter_at(line: &[u8], at: usize, tally: Tally, pool: &mut [u8], table: &mut [u32]) -> Named
    requires within { at ≤ length line.now }
    requires good { Good pool.old table.old }
    requires room { Room table.old tally.names tally.records }
    ensures { (dst : List ℕ) → Done line.now name named (NumberTold table.new result.number) (point.At at) (lent pool.old table.old dst (Ok tally))
        result.end.at (lent pool.new table.new dst result.end.stand) }
{
    let mut bytes = [0u8; NAME_BYTES];
    match scan_name(line, at, &mut bytes) {
        Err(q) => Named {
            end: Reached {
                at: Point::Bad(q),
                stand: Ok(tally),
            },
            number: 0,
        },
        Ok(name) => {
            let a = enter_front(&bytes, name.size, pool, table);
            Named {
                end: Reached {
                    at: Point::At(name.end),
                    stand: stand_after(at, tally, a),
                },
                number: number_told(a),
            }
        }
    }
}

/// The name that begins right here, entered: 2 and 3 at its first byte.
pub fn read_named(line: &[u8], from: Reached, pool: &mut [u8], table: &mut [u32]) -> Named
    requires { Ready line.now from.at pool.old table.old from.stand }
    ensures { (dst : List ℕ) → Done line.now name named (NumberTold table.new result.number) from.at (lent pool.old table.old dst from.stand)
        result.end.at (lent pool.new table.new dst result.end.stand) }
{
    let Ok(tally) = from.stand else {
        let at = read_name(line, from.at);
        let stand = from.stand;
        return Named {
            end: Reached { at, stand },
            number: 0,
        };
    };
    let Point::At(i) = from.at else {
        return Named {
            end: from,
            number: 0,
        };
    };
    enter_at(line, i, tally, pool, table)
}
