//! The command `check_edition`: sheets of constraints, a file each, over one name table. Each is read, solved and put before the judge; a page is written for
//! each, in order, and a last line for all. docs/EDITION.md says what the report tells, and what the status means.
#![tactic(auto)]

ghost use Rattle.std.specs.Prelude.{◌≡◌, true, map, IsErr, IfOk, OnErr};
ghost use Rattle.std.specs.String.{string_bytes};
ghost use Rattle.edition_checks.specs.Given.{given_of};
ghost use Rattle.edition_command.specs.Promise.{isHelp, asksAlone, CountsBy, PassesBy};

mod arguments;
mod overwriting;

use crate::arguments::{command, options_of};
use crate::overwriting::{Streams, is_sheet, may_be_written};
use anyhow::{Context, Result, anyhow, bail};
use clap::error::ErrorKind;
use edition_checks::files::Given;
use edition_notes::shown::push_shown;
use edition_options::options::{Form, Options};
use edition_options::output::path_of;
pub use edition_status::status::Status;
use edition_status::status::{Totals, ended, status_of};
use edition_text::{apart, together, verify};
use edition_told::files::Named;
pub use edition_words::Words;
use std::rt::Files;

// Checks files in the form that was asked for.
fn check<R: Files + Print + Eprint + AllocGlobal>(
    rt: &R,
    named: &Named,
    given: &[Given],
    options: Options,
) -> Result<Totals>
    ensures { IfOk result (λ t. CountsBy options.entry.form options.entry.separate (given_of given.now) t.sheets t.accepted) }
{
    match (options.form, options.separate) {
        (Form::Text, false) => together::check(rt, given, options),
        (Form::Text, true) => apart::check(rt, given, options),
        (Form::Json, _) => edition_json::check(rt, named, given, options),
        (Form::Html(path), _) => edition_page::check(rt, given, options, path),
        (Form::Verified(path), _) => verify::check(rt, path, given),
    }
}

/// Checks files as they were had, in the form that was asked for, and says what they come to. `named` knows whose names aren't shown as they were given.
///
/// Accepted (the exit status 0) means that every sheet of the edition that the files are, or of each as an edition by itself, is accepted, and its constraints
/// are true by what its page prints; or, where they are judged by a certificate, that each file is one that it keeps, and true by it (`PassesBy`).
pub fn check_given<R: Files + Print + Eprint + AllocGlobal>(
    rt: &R,
    named: &Named,
    given: &[Given],
    options: Options,
) -> Result<Status>
    ensures { IfOk result (λ s. s ≡ Status.Accepted → PassesBy options.entry.form options.entry.separate (given_of given.now)) }
{
    let totals = check(rt, named, given, options)?;
    if options.strict && 0 < totals.notes {
        let _ = eprintln!(rt; "check_edition: --strict, and there are notes: the status is 1");
    }
    Ok(status_of(totals, options.strict))
}

// Does a word ask for help or for the version?
#[tactic(auto, unfolding(crate::specs::Promise::isHelp))]
fn is_help(word: &str) -> bool
    ensures { result ≡ isHelp word.now }
{
    matches!(word, "-h" | "--help" | "-V" | "--version")
}

// Is the one word of a command line that asks for help or for the version? Beside others it may be a sheet whose name begins with "-".
fn asks_alone(words: &Words) -> bool
    ensures { result ≡ asksAlone (map string_bytes words.now.all.items) }
{
    match words.all.as_slice() {
        [_, word] => is_help(word.as_str()),
        _ => false,
    }
}

// Prints what a command line is answered that names no files to check: help, the version, or the mistake in it.
fn answer<R: Print + Eprint>(rt: &R, words: &Words, error: &clap::Error) -> Result<Status>
    ensures { IfOk result (λ s. s ≡ Status.Accepted → asksAlone (map string_bytes words.now.all.items) ≡ true) }
{
    if error.kind() == ErrorKind::OutOfMemory {
        return Err(anyhow!("out of memory"));
    }
    if error.use_stderr() {
        let _ = error.print(rt);
        return Ok(Status::Usage);
    }
    if !asks_alone(words) {
        return Ok(mistake(
            rt,
            "help and version are asked for alone; a sheet whose name begins with - is named as ./-NAME",
        ));
    }
    error.print(rt)?;
    Ok(Status::Accepted)
}

// A mistake on the command line that is found behind `clap`: standard error says what it is.
fn mistake<R: Eprint>(rt: &R, what: &str) -> Status
    ensures { result ≡ Status.Usage }
{
    let _ = eprintln!(rt; "check_edition: {what}");
    Status::Usage
}

// A line that begins with a file, without control characters.
fn line_on<R: AllocGlobal>(rt: &R, path: &str, what: &str) -> Result<String> {
    let mut line = String::new(rt.alloc());
    push_shown(&mut line, path.as_bytes())?;
    line.push_str(what)?;
    Ok(line)
}

// What is wrong with the sheets that are named, if something is: standard input twice, or one that standard output or standard error goes into.
fn wrong_sheet<'a, R: Files>(
    rt: &R,
    names: &'a [&'a str],
    streams: Streams,
) -> Option<(&'a str, &'static str)> {
    let mut input = false;
    for name in names {
        if *name == "-" && input {
            return Some((*name, ": standard input is named twice"));
        }
        input = input || *name == "-";
        if streams.go_into(rt, path_of(name)) {
            return Some((
                *name,
                ": a sheet, and standard output or standard error goes into it",
            ));
        }
    }
    None
}

// What is wrong with the file that an option names, if something is: it can't be opened by its name, or it is to be written and is a sheet, or standard output
// or standard error goes into it.
fn wrong_file<'a, R: Files>(
    rt: &R,
    words: &Words,
    names: &[&str],
    options: Options<'a>,
    streams: Streams,
) -> Option<(&'a str, &'static str)> {
    let path = options.path()?;
    if !words.is_path(path) {
        return Some((path, ": no file can be opened by a name that isn't UTF-8"));
    }
    if streams.go_into(rt, path) {
        return Some((
            path,
            ": named by an option, and standard output or standard error goes into it",
        ));
    }
    if options.output().is_some() && is_sheet(rt, path, names) {
        return Some((path, ": named as a sheet, and as the file to write"));
    }
    None
}

// What is wrong with the files of a command line, as a line, if something is.
fn wrong_with<R: Files + AllocGlobal>(
    rt: &R,
    words: &Words,
    names: &[&str],
    options: Options,
) -> Result<Option<String>> {
    let streams = Streams::of(rt);
    let wrong = match wrong_sheet(rt, names, streams) {
        None => wrong_file(rt, words, names, options, streams),
        wrong => wrong,
    };
    match wrong {
        Some((path, what)) => Ok(Some(line_on(rt, path, what)?)),
        None => Ok(None),
    }
}

// Sees that the file that is to be written, if one is, may be made anew.
fn check_output<R: Files + AllocGlobal>(rt: &R, options: Options) -> Result<()> {
    let Some(output) = options.output() else {
        return Ok(());
    };
    let unread = line_on(rt, output.path(), ": can't be read: not overwritten")?;
    if may_be_written(rt, output).context(unread)? {
        return Ok(());
    }
    let path = line_on(rt, output.path(), ": exists, and is no ")?;
    bail!("{path}{}: not overwritten", output.kind())
}

// Reads the sheets of a command line and checks them, once it is seen that what is written overwrites nothing else.
fn check_named<R: Files + Print + Eprint + AllocGlobal>(
    rt: &R,
    named: &Named,
    options: Options,
) -> Result<Status> {
    check_output(rt, options)?;
    check_given(rt, named, &named.read_all(rt)?, options)
}

// Checks the sheets with these names.
fn check_names<R: Files + Input + Print + Eprint + AllocGlobal>(
    rt: &R,
    words: &Words,
    names: &[&str],
    options: Options,
) -> Result<Status> {
    if let Some(what) = wrong_with(rt, words, names, options)? {
        return Ok(mistake(rt, &what));
    }
    match Named::of(rt, names, words)? {
        Some(named) => check_named(rt, &named, options),
        None => Ok(mistake(rt, "no sheet: nothing comes from standard input")),
    }
}

// Looks at the words of a command line, and checks the files that they name.
fn check_words<R: Files + Input + Print + Eprint + AllocGlobal>(
    rt: &R,
    words: &Words,
) -> Result<Status> {
    let matches = match command(rt.alloc())?.try_get_matches_from(words.all.as_slice()) {
        Ok(matches) => matches,
        Err(error) => return answer(rt, words, &error),
    };
    let options = options_of(&matches);
    let names = matches.get_strs("FILE").unwrap_or(&[]);
    match (names, options.form) {
        ([], Form::Verified(_)) => {
            Ok(mistake(rt, "no sheet: name those to be judged by the certificate"))
        }
        ([], _) => check_names(rt, words, &["-"], options),
        _ => check_names(rt, words, names, options),
    }
}

// What the words of a command line come to, if they can be had.
fn checked<R: Files + Input + Print + Eprint + AllocGlobal>(
    rt: &R,
    words: Result<Words>,
) -> Result<Status>
    ensures { OnErr words (IsErr result) }
{
    check_words(rt, &words?)
}

/// Runs the command with the words of a command line, the first of which is its own name: what it comes to. Where there is no whole report, standard
/// error says why; without words there is none. Accepted is what `check_given` answers of the files that were named, as they were had, or what help and the
/// version come to where they are asked for alone. Which words are names is for `clap` to tell, and which bytes a file holds is the disk's.
pub fn run<R: Files + Input + Print + Eprint + AllocGlobal>(rt: &R, words: Result<Words>) -> Status
    ensures { OnErr words (result ≡ Status.NoReport) }
{
    ended(rt, checked(rt, words))
}
