// The walk over a file whose sizes were tested before: its words, its pieces from the front, and the torn record behind them.
ghost use Rattle.std.specs.Prelude.{◌≡◌, [], ◌∷◌, ◌+◌, ◌*◌, ◌/◌, ◌≤◌, ◌<◌, ◌^◌, length, get_or, set};
ghost use Rattle.std.proofs.lemmas.List.Edits.{sets};
ghost use Rattle.std.proofs.Math.Seq.{slice};
ghost use Rattle.rules.specs.Refusals.{told};
ghost use Rattle.rules.specs.Names.{table_of};
ghost use Rattle.rules.specs.Rescue.{words_in, bytes_of, piecesIn, rescueGiven};
ghost use Rattle.rescue.specs.Told.{Walked, Noted, Took};

use super::Counts;
use names::inner::is_good;
use names::tables::NameTable;
use records::inner::{con_end, put};
use rules::{POOL_BYTES, RECORDS, Refusal, TABLE_WORDS};

// What is lent: 2,048 records, and a place more for a torn record.
const KEPT_BYTES: usize = 32768;

const PLACES: usize = 2049;

// The words of 2,048 records and of a torn one.
const FILE_WORDS: usize = 8196;

// 10, 8, 1, by the lengths of the buffers.
#[tactic(auto, unfolding(rules::specs::Rescue::rescueGiven, rules::specs::Names::lentTable, rules::specs::Calls::tableKept))]
pub fn given(
    pool: &[u8],
    table: &[u32],
    file: &[u8],
    kept: usize,
    skipped: usize,
) -> Result<(), Refusal>
    ensures { told result ≡ rescueGiven pool.now table.now file.now kept skipped }
{
    if pool.len() < POOL_BYTES || table.len() < TABLE_WORDS {
        return Err(Refusal::ShortBuffer);
    }
    if kept < KEPT_BYTES || skipped < PLACES {
        return Err(Refusal::ShortBuffer);
    }
    if RECORDS < file.len() / 16 {
        return Err(Refusal::TooLarge);
    }
    if is_good(pool, table) {
        Ok(())
    } else {
        Err(Refusal::Malformed)
    }
}

// The word of a file with the number i.
fn word_at(file: &[u8], i: usize) -> u32
    requires { i < length file.now / 4 }
    ensures { result ≡ get_or (words_in file.now) i 0 }
{
    let b = i * 4;
    file[b] as u32
        + 256 * file[b + 1] as u32
        + 65536 * file[b + 2] as u32
        + 16777216 * file[b + 3] as u32
}

// The words of a file.
pub fn fill(file: &[u8], dst: &mut [u32])
    ensures { dst.new ≡ sets dst.old 0 (words_in file.now) }
{
    for i in 0..file.len() / 4 {
        put(dst, i, word_at(file, i));
    }
}

// Writes a word with its low byte first, as far as the buffer goes: the place may lie behind its end, but the fourth from there has a number.
fn put_word(dst: &mut [u8], i: usize, w: u32)
    requires { i < 2 ^ 60 }
    ensures { dst.new ≡ sets dst.old i (bytes_of (w ∷ [])) }
{
    put(dst, i, (w % 256) as u8);
    put(dst, i + 1, (w / 256 % 256) as u8);
    put(dst, i + 2, (w / 65536 % 256) as u8);
    put(dst, i + 3, (w / 16777216 % 256) as u8);
}

// Writes the words from b up to e.
fn put_words(s: &[u32], b: usize, e: usize, dst: &mut [u8], out: usize)
    requires order { b ≤ e }
    requires within { e ≤ length s.now }
    requires few { length s.now ≤ 8196 }
    requires place { out ≤ 32768 }
    ensures { dst.new ≡ sets dst.old out (bytes_of (slice b e s.now)) }
{
    for i in b..e {
        put_word(dst, out + (i - b) * 4, s[i]);
    }
}

// The pieces of the records of a list: constraints to `kept`, the places of the others to `skipped`.
fn walk(names: NameTable, s: &[u32], kept: &mut [u8], skipped: &mut [u32]) -> Counts
    requires { length s.now / 4 ≤ 2048 }
    ensures { Walked (piecesIn (table_of names.entry.pool.now names.entry.table.now) s.now) kept.old kept.new skipped.old skipped.new result }
{
    let n = s.len() / 4;
    let mut at = 0;
    let mut k = 0;
    let mut m = 0;
    while at < n {
        match con_end(names, s, at) {
            Some(e) => {
                put_words(s, at * 4, e * 4, kept, k * 16);
                k += e - at;
                at = e;
            }
            None => {
                put(skipped, m, at as u32);
                m += 1;
                at += 1;
            }
        }
    }
    Counts {
        kept: k,
        skipped: m,
    }
}

// Names the torn last record, if there is one, behind m places.
fn note_torn(file: &[u8], skipped: &mut [u32], m: usize) -> usize
    requires short { length file.now / 16 ≤ 2048 }
    requires few { m ≤ 2048 }
    ensures { Noted file.now m skipped.old skipped.new result }
{
    if file.len() % 16 == 0 {
        return m;
    }
    put(skipped, m, (file.len() / 16) as u32);
    m + 1
}

// The pieces of a file whose words are these.
fn take_pieces(
    names: NameTable,
    file: &[u8],
    s: &[u32],
    kept: &mut [u8],
    skipped: &mut [u32],
) -> Counts
    requires short { length file.now / 16 ≤ 2048 }
    requires words { s.now ≡ words_in file.now }
    ensures { let t = table_of names.entry.pool.now names.entry.table.now in
        Took (piecesIn t (words_in file.now)) file.now kept.old kept.new skipped.old skipped.new result }
{
    let walked = walk(names, s, kept, skipped);
    Counts {
        kept: walked.kept,
        skipped: note_torn(file, skipped, walked.skipped),
    }
}

// The same, with the words still to be taken from the file.
pub fn take_words(names: NameTable, file: &[u8], kept: &mut [u8], skipped: &mut [u32]) -> Counts
    requires { length file.now / 16 ≤ 2048 }
    ensures { let t = table_of names.entry.pool.now names.entry.table.now in
        Took (piecesIn t (words_in file.now)) file.now kept.old kept.new skipped.old skipped.new result }
{
    let mut words = [0; FILE_WORDS];
    fill(file, &mut words);
    take_pieces(names, file, &words[0..file.len() / 4], kept, skipped)
}
