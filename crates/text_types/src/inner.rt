//! Types: a type's record is counted at its first byte, and written when its parts are there.
pub mod leaves;
pub mod nested;

ghost use Rattle.std.specs.Prelude.{◌≡◌, List, ℕ, ◌+◌, ◌≤◌, min, length};
ghost use Rattle.rules.specs.TextReading.{ty_of};
ghost use Rattle.rules.specs.Writing.{writeTy};
ghost use Rattle.rules.specs.declared.Refusal.TheVariants.{Malformed};
ghost use Rattle.laws.specs.NameTable.{Good};
ghost use Rattle.text_grammar.specs.Choice.{among, heads, deepRuled};
ghost use Rattle.text_names.specs.Effects.{lent, Ready, Writes, Done};
ghost use Rattle.text_types.specs.Members.{Risen, keptIf};

use names::tables::NameTable;
use records::inner::is_less;
use rules::Refusal;
use text_grammar::inner::{Point, byte_at, refuse};
use text_names::inner::{At, Reached, Stand, place_of};

/// What a sheet is entered into: the name table, and the buffer of its records.
#[derive(Drop)]
pub struct Buffers<'a> {
    pub pool: &'a mut [u8],
    pub table: &'a mut [u32],
    pub dst: &'a mut [u32],
}

/// More than a sheet holds records: a count stays there.
const MANY: u32 = 4096;

/// One more, up to the most that is counted.
fn one_more(n: u32) -> u32
    ensures { result ≡ min (n + 1) 4096 }
{
    n.saturating_add(1).min(MANY)
}

/// Does a field's name, if it is held, come after the one before?
fn rises(buffers: &Buffers, before: Option<u32>, x: u32) -> bool
    requires { Good buffers.now.pool.now buffers.now.table.now }
    ensures { Risen buffers.now.pool.now buffers.now.table.now before x result }
{
    let names = NameTable {
        pool: buffers.pool,
        table: buffers.table,
    };
    match before {
        None => true,
        Some(y) => is_less(names.order(y, x)),
    }
}

/// The sheet goes on if a test was passed, else it is refused.
fn pass_if(ok: bool, at: usize, s: Stand) -> Stand
    ensures { result ≡ keptIf ok Malformed at s }
{
    if ok {
        return s;
    }
    let _tally = s?;
    Err(At {
        why: Refusal::Malformed,
        at,
    })
}

/// Does a type begin with this byte?
fn is_head(b: u8) -> bool
    ensures { result ≡ among b heads }
{
    matches!(
        b,
        b'?' | b'!' | b'[' | b'B' | b'S' | b'D' | b'F' | b'L' | b'@'
    )
}

/// A type nested too deep: 1 at its first byte, and nothing behind it is looked at.
fn too_deep(line: &[u8], q: Point, s: Stand) -> Reached
    ensures { (pool table dst : List ℕ) → Ready line.now q pool table s → Done line.now deepRuled ty_of (Writes writeTy) q (lent pool table dst s)
        result.at (lent pool table dst result.stand) }
{
    if is_head(byte_at(line, q)) {
        return Reached {
            at: Point::Deep,
            stand: pass_if(false, place_of(q), s),
        };
    }
    Reached {
        at: refuse(q),
        stand: s,
    }
}
