//! Numbers, refusals and the last line in words.
ghost use Rattle.std.specs.Prelude.{◌≡◌, ◌++◌, eqb};
ghost use Rattle.rules.specs.Grammar.{ascii};
ghost use Rattle.rules.specs.Refusals.{number_of};
ghost use Rattle.rules.specs.Reports.{amount, ending, quantity, reason, refusedText, unseenText, totalText};
ghost use Rattle.text_spell.specs.Sinks.{Puts};

use rules::{Refusal, Unseen};
use text_spell::put_digits;
use text_spell::sink::Sink;

/// Puts a number: its last ten digits, if it has more.
pub fn put_amount<S: Sink>(to: &mut S, n: usize) -> Result<(), S::Error>
    ensures { Puts (S.place to.old) (amount n) result (S.place to.new) }
{
    put_digits(to, 10, n)
}

// The end of what is counted: one of it, or several.
fn plural(n: usize) -> &'static [u8]
    ensures { result.now ≡ ending (eqb n 1) }
{
    if n == 1 { b"" } else { b"s" }
}

// Puts what is counted.
fn put_counted<S: Sink>(to: &mut S, n: usize, what: &[u8]) -> Result<(), S::Error>
    ensures { Puts (S.place to.old) (what.now ++ ending (eqb n 1)) result (S.place to.new) }
{
    to.put(what)?;
    to.put(plural(n))
}

/// Puts a number and what is counted: one of it, or several.
#[tactic(auto, unfolding(rules::specs::Reports::quantity))]
pub fn put_quantity<S: Sink>(to: &mut S, n: usize, what: &[u8]) -> Result<(), S::Error>
    ensures { Puts (S.place to.old) (quantity n what.now) result (S.place to.new) }
{
    put_amount(to, n)?;
    put_counted(to, n, what)
}

// A refusal in words.
#[tactic(auto, unfolding(rules::specs::Reports::reason, rules::specs::Reports::reasons))]
fn reason(why: Refusal) -> &'static [u8]
    ensures { result.now ≡ reason (number_of why) }
{
    match why {
        Refusal::Malformed => {
            b"a type is nested over 64 deep, or a field's name doesn't follow the one before"
        }
        Refusal::NameLength => b"a name is empty or has over 48 bytes",
        Refusal::NoRoom => b"there is no room for another name",
        Refusal::Mixed => b"a name is both a variable and a parameter",
        Refusal::Unsolved => b"constraints remain",
        Refusal::NotDimension => b"a dimension is asked for where there is none",
        Refusal::OutOfRange => b"a power leaves its range",
        Refusal::TooLarge => b"over 2,048 records, 64 factors or 64 levels",
        Refusal::WrongCount => b"a count is wrong",
        Refusal::ShortBuffer => b"a buffer is too short",
        Refusal::NotConfirmed => b"the judge says no",
        Refusal::NotGrammar => b"the line is outside the grammar",
    }
}

/// Puts that a sheet is refused, with the refusal's number and in words.
#[tactic(auto, unfolding(rules::specs::Reports::refusedText))]
pub fn put_refused<S: Sink>(to: &mut S, why: Refusal) -> Result<(), S::Error>
    ensures { Puts (S.place to.old) (refusedText (number_of why)) result (S.place to.new) }
{
    to.put(b"not accepted (")?;
    put_amount(to, why.number() as usize)?;
    to.put(b"): ")?;
    to.put(reason(why))
}

// Why a file can't be had, in words.
#[tactic(auto, unfolding(rules::specs::Reports::unseenText))]
fn unseen(why: Unseen) -> &'static [u8]
    ensures { result.now ≡ unseenText why }
{
    match why {
        Unseen::NotOpened => b"not accepted: the file can't be opened\n",
        Unseen::NotRead => b"not accepted: the file can't be read\n",
        Unseen::TooLong => { b"not accepted: the file is longer than a sheet's 1,048,576 bytes\n" }
    }
}

/// Puts that a file can't be had.
pub fn put_unseen<S: Sink>(to: &mut S, why: Unseen) -> Result<(), S::Error>
    ensures { Puts (S.place to.old) (unseenText why) result (S.place to.new) }
{
    to.put(unseen(why))
}

/// Puts the last line of all: how many sheets, how many of them accepted, and how many not (none where more are accepted than there are); and how
/// many names there are.
#[tactic(auto, unfolding(rules::specs::Reports::totalText))]
pub fn put_total<S: Sink>(
    to: &mut S,
    sheets: usize,
    yes: usize,
    names: usize,
) -> Result<(), S::Error>
    ensures { Puts (S.place to.old) (totalText sheets yes names) result (S.place to.new) }
{
    put_quantity(to, sheets, b" sheet")?;
    to.put(b", ")?;
    put_amount(to, yes)?;
    to.put(b" accepted, ")?;
    put_amount(to, sheets.saturating_sub(yes))?;
    to.put(b" not accepted, ")?;
    put_amount(to, names)?;
    to.put(b" of 256 names\n")
}
