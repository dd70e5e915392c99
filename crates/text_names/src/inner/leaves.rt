//! Types without a type inside: their record is counted at their first byte.
ghost use Rattle.std.specs.Prelude.{◌≡◌, List, ℕ};
ghost use Rattle.rules.specs.TextReading.{ty_of};
ghost use Rattle.rules.specs.Writing.{writeTy};
ghost use Rattle.text_grammar.specs.Points.{PointIn, Reads, Any};
ghost use Rattle.text_grammar.specs.Signs.{spelled};
ghost use Rattle.text_names.specs.Stands.{Few};
ghost use Rattle.text_names.specs.Effects.{lent, Ready, Done, Writes};
ghost use Rattle.text_names.specs.Leaves.{mark_of, openView, openRule, word_of, basicRule};

use super::naming::read_named;
use super::{Reached, count, place_of, put_head};
use records::{Basic, Open, View};
use text_grammar::inner::{Point, mark, next_sign, sign};

fn mark_of(par: bool) -> u8
    ensures { result ≡ mark_of par }
{
    if par { b'!' } else { b'?' }
}

fn open_view(par: bool, x: u32) -> View
    ensures { result ≡ openView par x }
{
    if par {
        View::Opened(Open::Par(x))
    } else {
        View::Opened(Open::Var(x))
    }
}

/// A variable, or a parameter, and its record.
pub fn enter_open(
    line: &[u8],
    from: Reached,
    par: bool,
    pool: &mut [u8],
    table: &mut [u32],
    dst: &mut [u32],
) -> Reached
    requires { Ready line.now from.at pool.old table.old from.stand }
    ensures { Done line.now (openRule par) ty_of (Writes writeTy) from.at (lent pool.old table.old dst.old from.stand)
        result.at (lent pool.new table.new dst.new result.stand) }
{
    let c = next_sign(line, from.at);
    let now = count(1, place_of(c), from.stand);
    let a = mark(line, c, mark_of(par));
    let x = read_named(line, Reached { at: a, stand: now }, pool, table);
    put_head(open_view(par, x.number), from.stand, x.end.stand, dst);
    x.end
}

/// The keyword of a basic type.
fn keyword(line: &[u8], p: Point, b: Basic) -> Point
    requires { PointIn line.now p }
    ensures { Reads line.now p (spelled (word_of b)) Any result }
{
    match b {
        Basic::Boolean => sign(line, p, b"Bool"),
        Basic::Text => sign(line, p, b"String"),
        Basic::Datetime => sign(line, p, b"DateTime"),
    }
}

/// A basic type and its record: no name is entered, whatever pool and table hold.
pub fn enter_basic(line: &[u8], from: Reached, b: Basic, dst: &mut [u32]) -> Reached
    requires within { PointIn line.now from.at }
    requires few { Few from.stand }
    ensures { (pool table : List ℕ) → Ready line.now from.at pool table from.stand
        → Done line.now (basicRule b) ty_of (Writes writeTy) from.at (lent pool table dst.old from.stand)
        result.at (lent pool table dst.new result.stand) }
{
    let c = next_sign(line, from.at);
    let stand = count(1, place_of(c), from.stand);
    put_head(View::Basic(b), from.stand, stand, dst);
    let at = keyword(line, c, b);
    Reached { at, stand }
}
