// What is promised of calculation lines: theorems, each the contract of a function that does nothing.
#![tactic(auto)]

ghost use Rattle.theorems_lines.specs.Theorems.{AnsweredIsSound, ClosedLinesRun, OrderAlone, LineAlike};

/// A line is answered only after the judge said yes to its set, which is solved; with closed references it then runs to its end on types alone, and
/// what is left means the same as the answer (`accepted-line`: `runs-to-its-end`, `judged-yes`, `solved`). `lines::check_line` equals the call.
pub fn answered_is_sound()
    ensures { AnsweredIsSound }
{}

/// Of a line whose references are closed: other fresh lent names give the same outcome, or one of the calls is refused with 7 or 8; the judge never
/// says no; and one that passes the checks at entry and would run is answered, except for 7 and 8 (`lent-names`, `never-no`, `answered-if-it-runs`).
pub fn closed_lines_run()
    ensures { ClosedLinesRun }
{}

/// An outcome depends on a table's names only by the order of their bytes (`order-alone`).
pub fn order_alone_decides()
    ensures { OrderAlone }
{}

/// Types and lent names that read alike, over two tables, are answered alike (`line-alike`).
pub fn read_alike_answered_alike()
    ensures { LineAlike }
{}
