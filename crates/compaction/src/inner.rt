// The steps of compaction.
ghost use Rattle.std.specs.Prelude.{◌≡◌, ◌&&◌, ◌≤◌, ◌-◌, ◌%◌, leb, length, replicate};
ghost use Rattle.std.proofs.lemmas.List.Edits.{sets};
ghost use Rattle.std.proofs.Math.Seq.{slice};
ghost use Rattle.rules.specs.Base.{need, all};
ghost use Rattle.rules.specs.Names.{table_of};
ghost use Rattle.rules.specs.Offices.{namesOne};
ghost use Rattle.rules.specs.Writing.{kindIn};
ghost use Rattle.laws.specs.NameTable.{Good};
ghost use Rattle.rules.specs.Compaction.{newNumber, renumberIf, renumbered};
ghost use Rattle.compaction.specs.Told.{marks, Noted, Marked, Numbered};
ghost use Rattle.compaction.specs.Told.{metSet, metSets};
ghost use Rattle.compaction.specs.Told.{Squeezed};

use names::tables::NameTable;
use records::inner::set_good;
use rules::NAMES;

// Is word a of a record with this word 0 and this word b the number of a name?
#[tactic(auto, unfolding(rules::specs::Writing::kindIn, rules::specs::Offices::namesOne, rules::specs::Base::any))]
fn names_one(w: u32, b: u32) -> bool
    ensures { result ≡ namesOne (kindIn w) b }
{
    match w % 65536 {
        1 | 2 | 8 | 9 | 11 | 12 | 13 | 23 | 24 => true,
        25 => b == 0,
        _ => false,
    }
}

// Marks a name's number, if it is one and held.
fn note(m: &mut [bool; NAMES], n: usize, named: bool, a: u32)
    requires places { length m.old ≡ 256 }
    requires few { n ≤ 256 }
    ensures { Noted m.old m.new n named a }
{
    let i = a as usize;
    if named && i < n {
        m[i] = true;
    }
}

// Marks each held name that a record names.
pub fn mark(s: &[u32], n: usize, m: &mut [bool; NAMES])
    requires places { length m.old ≡ 256 }
    requires few { n ≤ 256 }
    ensures { Marked m.old m.new n s.now }
{
    for i in 0..s.len() / 4 {
        let j = i * 4;
        note(m, n, names_one(s[j], s[j + 2]), s[j + 1]);
    }
}

// How many marks stand before a.
fn number_of(m: &[bool; NAMES], a: u32) -> u32
    requires { length m.now ≡ 256 }
    ensures { result ≡ newNumber (marks m.now) a }
{
    let e = a as usize;
    let mut k = 0;
    for i in 0..e {
        if NAMES <= i {
            return k;
        }
        k += u32::from(m[i]);
    }
    k
}

// The new number of each name that is marked, and of every other number below 256.
fn numbers(m: &[bool; NAMES], to: &mut [u32; NAMES])
    requires places { length m.now ≡ 256 }
    requires room { length to.old ≡ 256 }
    ensures { Numbered (marks m.now) to.new 256 }
{
    for i in 0..256 {
        to[i as usize] = number_of(m, i);
    }
}

// Word a of a record afterwards.
fn new_word(m: &[bool; NAMES], to: &[u32; NAMES], w: u32, a: u32, b: u32) -> u32
    requires places { length m.now ≡ 256 }
    requires numbered { Numbered (marks m.now) to.now 256 }
    ensures { result ≡ renumberIf (namesOne (kindIn w) b) (marks m.now) a }
{
    if !names_one(w, b) {
        return a;
    }
    let i = a as usize;
    if i < NAMES { to[i] } else { number_of(m, a) }
}

// Gives each name its new number.
pub fn renumber(s: &mut [u32], m: &[bool; NAMES])
    requires { length m.now ≡ 256 }
    ensures { s.new ≡ renumbered (marks m.now) s.old }
{
    let mut to = [0; NAMES];
    numbers(m, &mut to);
    for i in 0..s.len() / 4 {
        let j = i * 4;
        s[j + 1] = new_word(m, &to, s[j], s[j + 1], s[j + 2]);
    }
}

// Keeps the marked names, in the old order; how many. Reading is never behind writing, in the pool and in the table.
pub fn squeeze(pool: &mut [u8], table: &mut [u32], m: &[bool; NAMES]) -> usize
    requires { Good pool.old table.old }
    ensures { Squeezed (marks m.now) pool.old table.old pool.new table.new result }
{
    let n = table[0] as usize;
    let mut from = 0;
    let mut k = 0;
    let mut out = 0;
    for i in 0..n {
        let end = table[i + 1] as usize;
        if !m[i] {
            from = end;
            continue;
        }
        pool.copy_within(from..end, out);
        out += end - from;
        k += 1;
        table[k] = out as u32;
        from = end;
    }
    pool[out..from].fill(0);
    table[k + 1..n + 1].fill(0);
    table[0] = k as u32;
    k
}

// At most 64 sets, each of at most 2,048 records.
pub fn small(lengths: &[u32]) -> bool
    ensures { result ≡ (leb (length lengths.now) 64 && all (λ n. leb n 2048) lengths.now) }
{
    if 64 < lengths.len() {
        return false;
    }
    for &n in lengths {
        if 2048 < n {
            return false;
        }
    }
    true
}

// Is this a well formed set?
fn set_given(names: NameTable, words: &[u32]) -> bool
    requires { length words.now % 4 ≡ 0 }
    ensures { need result 1 ≡ metSet (table_of names.entry.pool.now names.entry.table.now) words.now }
{
    set_good(names, words)
}

// Do the lengths add up to the list, and is every set well formed?
pub fn sets_given(names: NameTable, sets: &[u32], lengths: &[u32]) -> bool
    ensures { need result 1 ≡ metSets (table_of names.entry.pool.now names.entry.table.now) lengths.now sets.now }
{
    let mut from = 0;
    for &n in lengths {
        let long = n as usize * 4;
        if sets.len() - from < long {
            return false;
        }
        let to = from + long;
        if !set_given(names, &sets[from..to]) {
            return false;
        }
        from = to;
    }
    from == sets.len()
}
