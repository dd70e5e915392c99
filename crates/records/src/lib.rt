//! Type records: what one record says, writing them, and the tests of whole lists.
#![tactic(auto)]

pub mod inner;
pub mod reader;
pub mod seen;
pub mod theorems;

ghost use Rattle.std.specs.Prelude.{◌≡◌, ◌&&◌, ◌%◌, eqb, length};
ghost use Rattle.rules.specs.Base.{need};
ghost use Rattle.rules.specs.Calls.{aloneGiven, setCall, typeCall, schemeCall, bindingsCall};
ghost use Rattle.rules.specs.Refusals.{told};

use inner::set_good;
use names::inner::is_good;
use names::tables::NameTable;
use reader::{Part, Reader, scheme_good};
use rules::{POOL_BYTES, RECORD_WORDS, Refusal, TABLE_WORDS};

/// An open name: a variable, a quantified variable by its index, a parameter.
#[derive(Clone, Copy, PartialEq, Eq)]
pub enum Open {
    Var(u32),
    Quant(u32),
    Par(u32),
}

/// What a factor is a power of.
#[derive(Clone, Copy, PartialEq, Eq)]
pub enum Atom {
    Free(Open),
    Base(u32),
}

/// The types that have no parts.
#[derive(Clone, Copy, PartialEq, Eq)]
pub enum Basic {
    Boolean,
    Text,
    Datetime,
}

/// What one record says. A factor has its numerator and denominator as words.
#[derive(Clone, Copy)]
pub enum View {
    Opened(Open),
    Basic(Basic),
    Dim(u32),
    Function(u32),
    Struct(u32, u32, u32),
    List,
    Field(u32),
    Factor(Atom, u32, u32),
    Equal,
    IsDim,
    IsScalar,
    HasField(u32),
    Binding(u32),
    Bound(Open),
    Scheme(u32),
    Concrete,
    Bad,
}

/// The four words of a record.
#[derive(Clone, Copy)]
pub struct Words {
    pub kind: u32,
    pub a: u32,
    pub b: u32,
    pub c: u32,
}

/// What comes before reading a list: refused 10 where pool or table is short, 8 where the list is long, 1 where the table is not well formed.
pub fn entry(pool: &[u8], table: &[u32], words: &[u32]) -> Result<(), Refusal>
    ensures { told result ≡ aloneGiven pool.now table.now words.now }
{
    if pool.len() < POOL_BYTES || table.len() < TABLE_WORDS {
        return Err(Refusal::ShortBuffer);
    }
    if RECORD_WORDS < words.len() {
        return Err(Refusal::TooLarge);
    }
    if is_good(pool, table) {
        Ok(())
    } else {
        Err(Refusal::Malformed)
    }
}

// A list of whole records that passed its test.
fn listed(words: &[u32], good: bool) -> Result<(), Refusal>
    ensures { told result ≡ need (eqb (length words.now % 4) 0 && good) 1 }
{
    if words.len() % 4 != 0 {
        return Err(Refusal::Malformed);
    }
    if good {
        Ok(())
    } else {
        Err(Refusal::Malformed)
    }
}

/// Is this list a well formed set of constraints? Refused as `entry` refuses, and 1 where it is not.
pub fn is_set(pool: &[u8], table: &[u32], words: &[u32]) -> Result<(), Refusal>
    ensures { told result ≡ setCall pool.now table.now words.now }
{
    entry(pool, table, words)?;
    let names = NameTable { pool, table };
    listed(words, set_good(names, words))
}

/// Is this list a well formed type? Refused as `entry` refuses, and 1 where it is not.
pub fn is_type(pool: &[u8], table: &[u32], words: &[u32]) -> Result<(), Refusal>
    ensures { told result ≡ typeCall pool.now table.now words.now }
{
    entry(pool, table, words)?;
    let names = NameTable { pool, table };
    let reader = Reader {
        names,
        quantified: 0,
        words,
    };
    listed(words, reader.is_type(0))
}

/// Is this list a well formed scheme? Refused as `entry` refuses, and 1 where it is not.
pub fn is_scheme(pool: &[u8], table: &[u32], words: &[u32]) -> Result<(), Refusal>
    ensures { told result ≡ schemeCall pool.now table.now words.now }
{
    entry(pool, table, words)?;
    let names = NameTable { pool, table };
    listed(words, scheme_good(names, words))
}

/// Is this list a well formed list of bindings? Refused as `entry` refuses, and 1 where it is not.
pub fn is_bindings(pool: &[u8], table: &[u32], words: &[u32]) -> Result<(), Refusal>
    ensures { told result ≡ bindingsCall pool.now table.now words.now }
{
    entry(pool, table, words)?;
    let names = NameTable { pool, table };
    let reader = Reader {
        names,
        quantified: 0,
        words,
    };
    listed(words, reader.all(Part::Binding, 0))
}
