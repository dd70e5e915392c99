// A file that is to be written.
ghost use Rattle.std.specs.Prelude.{◌≡◌, codes, if◌then◌else◌};
ghost use Rattle.std.specs.Str.{bytes_eq};
ghost use Rattle.edition_options.specs.Asked.{fileOf, kindOf};

pub use crate::writing::write_file;

/// How a page of HTML begins.
pub const PAGE: &str = "<!DOCTYPE html>\n<html lang=\"en\">\n<head>\n<meta charset=\"utf-8\">\n\
<meta name=\"viewport\" content=\"width=device-width, initial-scale=1\">\n<title>An edition checked: ";

/// What is written into a file.
#[derive(Clone, Copy)]
pub enum Output<'a> {
    Certificate(&'a str),
    Page(&'a str),
}

impl<'a> Output<'a> {
    /// The file.
    pub fn path(self) -> &'a str
        ensures { result ≡ fileOf self.entry }
    {
        match self {
            Output::Certificate(path) | Output::Page(path) => path,
        }
    }

    /// What it is, in words.
    pub fn kind(self) -> &'static str
        ensures { result.now ≡ kindOf self.entry }
    {
        match self {
            Output::Certificate(_) => "certificate",
            Output::Page(_) => "page of this program",
        }
    }
}

/// The path of a sheet by its name: "-" is standard input.
pub fn path_of(name: &str) -> &str
    ensures { result.now ≡ (if bytes_eq name.now (codes "-") then codes "/dev/stdin" else name.now) }
{
    if name == "-" { "/dev/stdin" } else { name }
}
