//! Types without a type inside.
ghost use Rattle.text_names.specs.Effects.{lent, Ready};
ghost use Rattle.text_types.specs.Rows.{LeafDone};

use records::Basic;
use text_dimensions::inner::whole::enter_dimension;
use text_grammar::inner::{byte_at, refuse};
use text_names::inner::Reached;
use text_names::inner::leaves::{enter_basic, enter_open};

/// The type whose first byte stands here, unless that is the first byte of a function, a list or a structure.
pub fn enter_leaf(
    line: &[u8],
    from: Reached,
    pool: &mut [u8],
    table: &mut [u32],
    dst: &mut [u32],
) -> Reached
    requires { Ready line.now from.at pool.old table.old from.stand }
    ensures { LeafDone line.now from.at (lent pool.old table.old dst.old from.stand) result.at (lent pool.new table.new dst.new result.stand) }
{
    match byte_at(line, from.at) {
        b'?' => enter_open(line, from, false, pool, table, dst),
        b'!' => enter_open(line, from, true, pool, table, dst),
        b'[' => enter_dimension(line, from, pool, table, dst),
        b'B' => enter_basic(line, from, Basic::Boolean, dst),
        b'S' => enter_basic(line, from, Basic::Text, dst),
        b'D' => enter_basic(line, from, Basic::Datetime, dst),
        _ => Reached {
            at: refuse(from.at),
            stand: from.stand,
        },
    }
}
