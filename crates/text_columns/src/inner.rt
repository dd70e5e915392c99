//! Where lines end.
ghost use Rattle.std.specs.Prelude.{◌≤◌, length};
ghost use Rattle.text_columns.specs.Cut.{Cut};

/// Where the line that begins at a place ends: at the next line feed, or with the text.
pub fn line_end(text: &[u8], at: usize) -> usize
    requires { at ≤ length text.now }
    ensures { Cut text.now at result }
{
    for i in at..text.len() {
        if text[i] == b'\n' {
            return i;
        }
    }
    text.len()
}
