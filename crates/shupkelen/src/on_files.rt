//! The calls on damaged files, on a full name table, and on text.
ghost use Rattle.std.specs.Prelude.{◌≡◌};
ghost use Rattle.rules.specs.Rescue.{rescueCall};
ghost use Rattle.rules.specs.Compaction.{compactCall};
ghost use Rattle.rules.specs.TextWriting.{writeTextCall};
ghost use Rattle.rules.specs.TextReading.{readTextCall};
ghost use Rattle.shupkelen.specs.Exports.{out, rescuedOut, compactedOut, textOut, textReadOut};

use compaction::compact;
use library_words::answers::{amount, rescued, sheet};
use library_words::hand;
use rescue::rescue;
use text::{read_text, write_text};

/// Rescues what is well formed of a damaged set file: words of four bytes, the lowest first, four words a record. The constraints that are whole go to
/// the front of `kept` (32,768 bytes or more), the place of each other record, and of a torn last one, to the front of `skipped` (2,049 words or more).
/// Says how many records are kept and how many places skipped. Refuses with 10, 8 (over 2,048 records) and 1 (no name table), and changes nothing then.
#[unsafe(no_mangle)]
pub extern "C" fn shupkelen_rescue(
    pool: &[u8],
    table: &[u32],
    file: &[u8],
    kept: &mut [u8],
    skipped: &mut [u32],
    answer: &mut [u32],
) -> u32
    ensures { out result answer.new (kept.new, skipped.new) ≡ rescuedOut (rescueCall pool.now table.now file.now kept.old skipped.old) answer.old }
{
    hand(rescued(rescue(pool, table, file, kept, skipped)), answer)
}

/// Drops the names that no set uses, moves the others up in the pool and renumbers the sets, all in place. The sets stand back to back, up to 64 of them;
/// `lengths` has their records. Says how many names are kept; numbers held elsewhere mean nothing afterwards. Refuses with 10, 8 and 1, and changes
/// nothing then.
#[unsafe(no_mangle)]
pub extern "C" fn shupkelen_compact(
    pool: &mut [u8],
    table: &mut [u32],
    sets: &mut [u32],
    lengths: &[u32],
    answer: &mut [u32],
) -> u32
    ensures { out result answer.new (pool.new, (table.new, sets.new)) ≡ compactedOut (compactCall pool.old table.old sets.old lengths.now) answer.old }
{
    hand(amount(compact(pool, table, sets, lengths)), answer)
}

/// Writes a set as text, a line a constraint, to the front of `text` (354,304 bytes or more; the rest stays). Says how many bytes. Refuses with 10, 8 and
/// 1, and writes nothing then.
#[unsafe(no_mangle)]
pub extern "C" fn shupkelen_write_text(
    pool: &[u8],
    table: &[u32],
    set: &[u32],
    text: &mut [u8],
    answer: &mut [u32],
) -> u32
    ensures { out result answer.new text.new ≡ textOut (writeTextCall pool.now table.now set.now text.old) answer.old }
{
    hand(amount(write_text(pool, table, set, text)), answer)
}

/// Reads text, any bytes, as a set (docs/GRAMMAR.md), to the front of `res`, and enters its new names into pool and table. Says how many records,
/// constraints and new names; the work buffer is left all zero. Refuses with 10, 1, then with 12, 1, 2, 3, 7 or 8 for the first line that is refused, and
/// says its line and column, from 1 (0 and 0 where no line is at fault); pool, table and `res` are then as before.
#[unsafe(no_mangle)]
pub extern "C" fn shupkelen_read_text(
    pool: &mut [u8],
    table: &mut [u32],
    text: &[u8],
    res: &mut [u32],
    work: &mut [u32],
    answer: &mut [u32],
) -> u32
    ensures { out result answer.new (pool.new, (table.new, (res.new, work.new))) ≡
        textReadOut (readTextCall pool.old table.old text.now res.old work.old) answer.old }
{
    hand(sheet(read_text(pool, table, text, res, work)), answer)
}
