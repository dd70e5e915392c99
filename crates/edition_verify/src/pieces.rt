// Pieces of a line, put behind what a vector holds.
ghost use Rattle.std.specs.Prelude.{◌≡◌, ◌++◌, map, OnOk};
ghost use Rattle.rules.specs.Grammar.{ascii};
ghost use Rattle.rules.specs.Refusals.{number_of};
ghost use Rattle.rules.specs.Reports.{amount, quantity, refusedText, shown, unseenText};

use edition_report::shown::put_shown;
use edition_report::words::{put_amount, put_quantity, put_refused, put_unseen};
use rules::{Refusal, Unseen};
use std::alloc::AllocError;

/// A file's name, as it is shown.
pub fn put_name(out: &mut Vec<u8>, name: &[u8]) -> Result<(), AllocError>
    ensures { OnOk result (out.new.items ≡ out.old.items ++ map shown name.now) }
{
    put_shown(out, name)
}

/// A number.
pub fn put_number(out: &mut Vec<u8>, n: usize) -> Result<(), AllocError>
    ensures { OnOk result (out.new.items ≡ out.old.items ++ amount n) }
{
    put_amount(out, n)
}

/// How many sheets.
pub fn put_sheets(out: &mut Vec<u8>, n: usize) -> Result<(), AllocError>
    ensures { OnOk result (out.new.items ≡ out.old.items ++ quantity n (ascii " sheet")) }
{
    put_quantity(out, n, b" sheet")
}

/// A refusal, in words.
pub fn put_refusal(out: &mut Vec<u8>, why: Refusal) -> Result<(), AllocError>
    ensures { OnOk result (out.new.items ≡ out.old.items ++ refusedText (number_of why)) }
{
    put_refused(out, why)
}

/// Why a file can't be had, and the end of the line.
pub fn put_reason(out: &mut Vec<u8>, why: Unseen) -> Result<(), AllocError>
    ensures { OnOk result (out.new.items ≡ out.old.items ++ unseenText why) }
{
    put_unseen(out, why)
}
