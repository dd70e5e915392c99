// The work on records whose callers know what stands where.
ghost use Rattle.std.specs.Prelude.{◌≡◌, [], ◌∷◌, ◌+◌, ◌-◌, ◌*◌, ◌/◌, ◌^◌, ◌≤◌, ◌<◌, length, set};
ghost use Rattle.std.proofs.lemmas.List.Edits.{sets};
ghost use Rattle.std.proofs.Math.Seq.{slice};
ghost use Rattle.rules.specs.Writing.{words};
ghost use Rattle.rules.specs.WellFormed.{is_lt};
ghost use Rattle.names.specs.Told.{toldOrder};
ghost use Rattle.records.specs.Cut.{fit};
ghost use Rattle.records.specs.Views.{recOf};
ghost use Rattle.records.specs.Good.{Ends, Chained, GoodTy, GoodCon, GoodBound};

use super::View;
use super::reader::{Part, Reader};
use super::seen::record_of;
use names::tables::NameTable;
use std::cmp::Ordering;

// Sets a word or a byte of a buffer, where there is one at i.
pub fn put<T: Copy>(dst: &mut [T], i: usize, x: T)
    ensures { dst.new ≡ set dst.old i x }
{
    if i < dst.len() {
        dst[i] = x;
    }
}

// Writes the record that says v and begins a part of n records, as far as the buffer goes. The place may lie far behind the buffer's end, but its number
// times 4 is a number too.
pub fn put_record(dst: &mut [u32], out: usize, v: View, n: usize)
    requires { out < 2 ^ 60 }
    ensures { dst.new ≡ sets dst.old (out * 4) (words (recOf v (fit n) ∷ [])) }
{
    let w = record_of(v, n);
    let i = out * 4;
    put(dst, i, w.kind);
    put(dst, i + 1, w.a);
    put(dst, i + 2, w.b);
    put(dst, i + 3, w.c);
}

// Writes the record that says v and is a part by itself.
pub fn put_one(dst: &mut [u32], out: usize, v: View)
    requires { out < 2 ^ 60 }
    ensures { dst.new ≡ sets dst.old (out * 4) (words (recOf v 1 ∷ [])) }
{
    put_record(dst, out, v, 1);
}

// Stores words from a place on, as far as the buffer goes.
fn put_all(dst: &mut [u32], i: usize, v: &[u32])
    ensures { dst.new ≡ sets dst.old i v.now }
{
    if dst.len() <= i {
        return;
    }
    let n = v.len().min(dst.len() - i);
    dst[i..i + n].copy_from_slice(&v[..n]);
}

// Copies the records from b up to e, as far as the buffer goes.
pub fn copy(v: &[u32], b: usize, e: usize, dst: &mut [u32], out: usize)
    requires order { b ≤ e }
    requires within { e * 4 ≤ length v.now }
    requires near { out + (e - b) < 2 ^ 60 }
    ensures { dst.new ≡ sets dst.old (out * 4) (slice (b * 4) (e * 4) v.now) }
{
    put_all(dst, out * 4, &v[b * 4..e * 4]);
}

// Is it strictly before?
pub fn is_less(o: Ordering) -> bool
    ensures { result ≡ is_lt (toldOrder o) }
{
    match o {
        Ordering::Less => true,
        Ordering::Equal => false,
        Ordering::Greater => false,
    }
}

// Where the type at a place ends, which is nested at most `deep`.
pub fn type_end(names: NameTable, q: u32, s: &[u32], at: usize, deep: usize) -> Option<usize>
    ensures { Ends (GoodTy names.entry.pool.now names.entry.table.now q s.now deep at) result }
{
    let reader = Reader {
        names,
        quantified: q,
        words: s,
    };
    reader.type_end(at, deep)
}

// Where the constraint at a place ends.
pub fn con_end(names: NameTable, s: &[u32], at: usize) -> Option<usize>
    ensures { Ends (GoodCon names.entry.pool.now names.entry.table.now 0 s.now at) result }
{
    let reader = Reader {
        names,
        quantified: 0,
        words: s,
    };
    reader.constraint_end(at)
}

// Are all records constraints, well formed?
pub fn set_good(names: NameTable, s: &[u32]) -> bool
    ensures { Chained (GoodCon names.entry.pool.now names.entry.table.now 0 s.now) (length s.now / 4) 0 result }
{
    let reader = Reader {
        names,
        quantified: 0,
        words: s,
    };
    reader.all(Part::Constraint, 0)
}

// Are the records from a place on bounds, well formed?
pub fn bounds_good(names: NameTable, q: u32, s: &[u32], from: usize) -> bool
    ensures { Chained (GoodBound names.entry.pool.now names.entry.table.now q s.now) (length s.now / 4) from result }
{
    let reader = Reader {
        names,
        quantified: q,
        words: s,
    };
    reader.all(Part::Bound, from)
}
