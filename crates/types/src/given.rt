//! Lists that passed their test over a name table, as values: whoever holds one needn't ask again.
ghost use Rattle.std.specs.Prelude.{◌≡◌, IfOk, Ok, ◌&&◌, [], ◌∷◌, ◌%◌, eqb, length};
ghost use Rattle.rules.specs.Base.{need};
ghost use Rattle.rules.specs.Calls.{shortLists};
ghost use Rattle.rules.specs.Refusals.{told, toldBy};
ghost use Rattle.types.specs.Given.{bindings_in, bindings_over, constraints_in, entered, set_over, short_over, type_in, type_over};

use super::{Bindings, Constraints, GivenBindings, GivenSet, GivenType, Type};
use names::tables::NameTable;
use queries::inner::is_unmixed;
use records::inner::set_good;
use records::reader::{Part, Reader};
use rules::{RECORD_WORDS, Refusal};

/// A list of at most 2,048 records; a longer one is 8.
pub fn short(words: &[u32]) -> Result<(), Refusal>
    ensures { told result ≡ shortLists (words.now ∷ []) }
{
    if RECORD_WORDS < words.len() {
        return Err(Refusal::TooLarge);
    }
    Ok(())
}

// The table of a short list. A longer list is 8, whatever the table; a table that was refused stays so.
fn table_over<'a>(
    names: Result<NameTable<'a>, Refusal>,
    words: &[u32],
) -> Result<NameTable<'a>, Refusal>
    ensures { told result ≡ short_over names.entry words.now }
{
    short(words)?;
    names
}

/// A list of whole records that passed its test; any other is 1.
pub fn passed(words: &[u32], good: bool) -> Result<(), Refusal>
    ensures { told result ≡ need (eqb (length words.now % 4) 0 && good) 1 }
{
    if words.len() % 4 == 0 && good {
        Ok(())
    } else {
        Err(Refusal::Malformed)
    }
}

impl<'a> GivenSet<'a> {
    /// The set of constraints that a list holds. Refused, in this order: 8 where the list is over 2,048 records long; as the table was refused; 1 where the
    /// list is not a well formed set. One test of the table serves every list over it.
    pub fn new(
        names: Result<NameTable<'a>, Refusal>,
        words: &'a [u32],
    ) -> Result<GivenSet<'a>, Refusal>
        ensures answer { toldBy constraints_in result ≡ set_over names.entry words.now }
        ensures same { IfOk result (λ s. names.entry ≡ Ok s.names) }
    {
        let names = table_over(names, words)?;
        passed(words, set_good(names, words))?;
        let end = words.len() / 4;
        let all = Constraints { words, at: 0, end };
        Ok(GivenSet { names, all })
    }

    /// The set of constraints that a list holds, refused as by `new`, and then with 4 where a name is both a variable and a parameter of it.
    pub fn apart(
        names: Result<NameTable<'a>, Refusal>,
        words: &'a [u32],
    ) -> Result<GivenSet<'a>, Refusal>
        ensures answer { toldBy constraints_in result ≡ entered names.entry words.now }
        ensures same { IfOk result (λ s. names.entry ≡ Ok s.names) }
    {
        let set = GivenSet::new(names, words)?;
        if is_unmixed(words, 0, words.len() / 4) {
            Ok(set)
        } else {
            Err(Refusal::Mixed)
        }
    }
}

impl<'a> GivenType<'a> {
    /// The type that a list holds, refused as a set is: 1 where the list is not one well formed type.
    pub fn new(
        names: Result<NameTable<'a>, Refusal>,
        words: &'a [u32],
    ) -> Result<GivenType<'a>, Refusal>
        ensures answer { toldBy type_in result ≡ type_over names.entry words.now }
        ensures same { IfOk result (λ t. names.entry ≡ Ok t.names) }
    {
        let names = table_over(names, words)?;
        let reader = Reader {
            names,
            quantified: 0,
            words,
        };
        passed(words, reader.is_type(0))?;
        let whole = Type { words, at: 0 };
        Ok(GivenType { names, whole })
    }
}

impl<'a> GivenBindings<'a> {
    /// The bindings that a list holds, refused as a set is.
    pub fn new(
        names: Result<NameTable<'a>, Refusal>,
        words: &'a [u32],
    ) -> Result<GivenBindings<'a>, Refusal>
        ensures answer { toldBy bindings_in result ≡ bindings_over names.entry words.now }
        ensures same { IfOk result (λ b. names.entry ≡ Ok b.names) }
    {
        let names = table_over(names, words)?;
        let reader = Reader {
            names,
            quantified: 0,
            words,
        };
        passed(words, reader.all(Part::Binding, 0))?;
        let end = words.len() / 4;
        let all = Bindings { words, at: 0, end };
        Ok(GivenBindings { names, all })
    }
}
