// The options of a command line.
ghost use Rattle.std.specs.Prelude.{◌≡◌, ◌||◌};
ghost use Rattle.edition_options.specs.Asked.{outputOf, pathOf, isPage};

use crate::output::Output;
use rules::Shown;

/// As lines, as one value of JSON, as a page of HTML in a file; or judged by the certificate in a file.
#[derive(Clone, Copy)]
pub enum Form<'a> {
    Text,
    Json,
    Html(&'a str),
    Verified(&'a str),
}

/// What was asked for beside the files.
#[derive(Clone, Copy)]
pub struct Options<'a> {
    pub shown: Shown,
    pub why: bool,
    pub form: Form<'a>,
    pub certificate: Option<&'a str>,
    pub names: bool,
    pub separate: bool,
    pub strict: bool,
}

impl<'a> Options<'a> {
    /// The file that is to be written, if one is: that of a page, whatever else is asked for.
    pub fn output(self) -> Option<Output<'a>>
        ensures { result ≡ outputOf self.entry }
    {
        match (self.form, self.certificate) {
            (Form::Html(path), _) => Some(Output::Page(path)),
            (_, Some(path)) => Some(Output::Certificate(path)),
            (_, None) => None,
        }
    }

    /// The file that an option names, if one does; no two that do stand together.
    pub fn path(self) -> Option<&'a str>
        ensures { result ≡ pathOf self.entry }
    {
        match self.form {
            Form::Verified(path) => Some(path),
            _ => Some(self.output()?.path()),
        }
    }

    /// Is it told which lines conflict? A page to look at always tells it.
    pub fn is_why_told(self) -> bool
        ensures { result ≡ (self.entry.why || isPage self.entry.form) }
    {
        self.why || matches!(self.form, Form::Html(_))
    }
}
