// The words that the program takes, as `clap` reads them.
use clap::{Arg, ArgAction, ArgMatches, Command};
use edition_options::options::{Form, Options};
use rules::Shown;
use std::alloc::{AllocError, Global};

/// What stands behind the options in the help.
const AFTER: &str =
    "Each sheet is told by itself: sheets are not compared with one another, so ?price may be euros in one and Bool in the next. \
All sheets share one table of 256 names; --separate gives each a table of its own, 256 names a sheet in place of 256 an edition.

A page begins with the file's name, and the place where one is known, NAME:LINE:COLUMN:. \
Notes on standard error (names that look alike, structs whose fields differ, sheets without a constraint) are no part of a verdict; \
with --separate names of different sheets are not compared.

A FILE of --certificate or --html is made anew only where it isn't there or is such a file already; a sheet is never overwritten. \
It is written as FILE.part first.

Exit status: 0 every sheet is accepted; 1 one isn't, a file that can't be read among them; 2 a mistake on the command line; \
3 no whole report (no memory, or the output can't be written), or a sheet that is accepted isn't in the certificate.";

/// An option: its name, the letter that stands for it, if one does, what the help says of it, whether it names a file, and beside which others it can't stand.
struct Row {
    name: &'static str,
    letter: Option<char>,
    help: &'static str,
    names_file: bool,
    not_beside: &'static [&'static str],
}

/// The options, in the order in which the help lists them.
const ROWS: &[Row] = &[
    Row {
        name: "quiet",
        letter: Some('q'),
        help: "Leave out the pages of sheets that are accepted",
        names_file: false,
        not_beside: &[],
    },
    Row {
        name: "names",
        letter: None,
        help: "List each sheet's new names behind the report",
        names_file: false,
        not_beside: &["json", "html"],
    },
    Row {
        name: "why",
        letter: None,
        help: "Tell which lines conflict, under a sheet of which constraints remain",
        names_file: false,
        not_beside: &[],
    },
    Row {
        name: "separate",
        letter: None,
        help: "Give each sheet a table of names of its own",
        names_file: false,
        not_beside: &[],
    },
    Row {
        name: "strict",
        letter: None,
        help: "Exit with 1 where there is a note",
        names_file: false,
        not_beside: &[],
    },
    Row {
        name: "json",
        letter: None,
        help: "Write one value of JSON in place of lines",
        names_file: false,
        not_beside: &[],
    },
    Row {
        name: "html",
        letter: None,
        help: "Write the report as a page of HTML to FILE, and the last line alone on standard output",
        names_file: true,
        not_beside: &["json"],
    },
    Row {
        name: "certificate",
        letter: None,
        help: "Write to FILE what is to be kept of the accepted sheets: digests, and what their variables stand for",
        names_file: true,
        not_beside: &["json", "html"],
    },
    Row {
        name: "verify",
        letter: None,
        help: "Solve nothing: judge the sheets by the certificate in FILE",
        names_file: true,
        not_beside: &[
            "certificate",
            "json",
            "html",
            "quiet",
            "names",
            "why",
            "separate",
            "strict",
        ],
    },
];

// The option of a row.
fn option<'a>(alloc: Global, row: &Row) -> Result<Arg<'a>, AllocError> {
    let mut option = Arg::new(alloc, row.name).long(row.name).help(row.help);
    if let Some(letter) = row.letter {
        option = option.short(letter);
    }
    if row.names_file {
        option = option.value_name("FILE");
    } else {
        option = option.action(ArgAction::SetTrue);
    }
    option.conflicts_with_all(row.not_beside)
}

// The files that are checked.
fn sheets<'a>(alloc: Global) -> Arg<'a> {
    Arg::new(alloc, "FILE")
        .help(
            "Sheets, one file each; none, or -, is standard input (beside --verify name at least one)",
        )
        .action(ArgAction::Append)
        .num_args(0..)
}

// The program, as its help begins and ends.
fn described<'a>(alloc: Global) -> Command<'a> {
    Command::new(alloc, "check_edition")
        .version("0.1.0")
        .about(
            "Checks sheets of type and dimension constraints: each is solved, and what solves it is judged",
        )
        .after_help(AFTER)
}

/// The words that the program takes.
pub(crate) fn command<'a>(alloc: Global) -> Result<Command<'a>, AllocError> {
    let mut command = described(alloc).arg(sheets(alloc))?;
    for row in ROWS {
        command = command.arg(option(alloc, row)?)?;
    }
    Ok(command)
}

/// The options, by what was found.
pub(crate) fn options_of<'a>(matches: &'a ArgMatches) -> Options<'a> {
    Options {
        shown: if matches.get_flag("quiet") {
            Shown::Quiet
        } else {
            Shown::All
        },
        why: matches.get_flag("why"),
        form: form_of(matches),
        certificate: matches.get_str("certificate"),
        names: matches.get_flag("names"),
        separate: matches.get_flag("separate"),
        strict: matches.get_flag("strict"),
    }
}

// The form that was asked for.
fn form_of<'a>(matches: &'a ArgMatches) -> Form<'a> {
    if let Some(path) = matches.get_str("verify") {
        return Form::Verified(path);
    }
    if let Some(path) = matches.get_str("html") {
        return Form::Html(path);
    }
    if matches.get_flag("json") {
        return Form::Json;
    }
    Form::Text
}
