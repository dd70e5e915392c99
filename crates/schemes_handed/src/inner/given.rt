//! Lists that passed their test over a name table, as values: each is looked at once, and whoever holds one needn't ask again.
ghost use Rattle.std.specs.Prelude.{◌≡◌, IfOk};
ghost use Rattle.rules.specs.Refusals.{toldBy};
ghost use Rattle.schemes_handed.specs.Given.{bounds_in, bounds_over, scheme_in, scheme_over, nothing_in, numbers_over};

use super::super::{Bounds, Handed, Scheme};
use names::tables::NameTable;
use records::View;
use records::inner::bounds_good;
use records::reader::scheme_good;
use records::seen::view_at;
use rules::{RECORDS, Refusal};
use types::Type;
use types::given::{passed, short};

impl<'a> Bounds<'a> {
    /// The bounds that a list holds. Refused: 8 where the list is over 2,048 records long, and 1 where it holds anything but bounds with held names.
    pub fn new(names: NameTable<'a>, words: &'a [u32]) -> Result<Bounds<'a>, Refusal>
        ensures { toldBy bounds_in result ≡ bounds_over names.entry words.now }
    {
        short(words)?;
        passed(words, bounds_good(names, 0, words, 0))?;
        Ok(Bounds { words, at: 0 })
    }
}

impl<'a> Scheme<'a> {
    /// The scheme that a list holds. Refused: 8 where the list is over 2,048 records long, and 1 where it is not one well formed scheme.
    pub fn new(names: NameTable<'a>, words: &'a [u32]) -> Result<Scheme<'a>, Refusal>
        ensures { toldBy scheme_in result ≡ scheme_over names.entry words.now }
    {
        short(words)?;
        passed(words, scheme_good(names, words))?;
        match view_at(words, 0) {
            View::Concrete => Ok(Scheme::Concrete(Type { words, at: 1 })),
            View::Scheme(n) => {
                let of = Type { words, at: 1 };
                let at = of.end();
                Ok(Scheme::Quantified(n, of, Bounds { words, at }))
            }
            _ => unreachable!(),
        }
    }
}

impl<'a> Handed<'a> {
    /// The names with these numbers. Refused: 8 where there are over 2,048 numbers, and 1 where the name table doesn't hold one of them.
    pub fn new(names: NameTable<'a>, numbers: &'a [u32]) -> Result<Handed<'a>, Refusal>
        ensures answer { toldBy nothing_in result ≡ numbers_over names.entry numbers.now }
        ensures same { IfOk result (λ h. (h.names ≡ names.entry) × (h.numbers.now ≡ numbers.now)) }
    {
        if RECORDS < numbers.len() {
            return Err(Refusal::TooLarge);
        }
        for x in numbers {
            if !names.is_held(*x) {
                return Err(Refusal::Malformed);
            }
        }
        Ok(Handed { names, numbers })
    }
}
