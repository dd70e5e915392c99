//! How many variables a set has, and the ceiling for as many.
ghost use Rattle.std.specs.Prelude.{◌≡◌, ◌≤◌};
ghost use Rattle.rules.specs.Ceiling.{ceilingFor};
ghost use Rattle.queries.specs.declared.Kind.TheVariants.{Variables};
ghost use Rattle.queries.specs.Scans.{choose, opensIn};
ghost use Rattle.solve_ceiling.specs.Told.{toldMost};
ghost use Rattle.solve_ceiling.specs.Counting.{Distinct};

use super::Most;
use queries::Kind;
use queries::name_set::NameSet;

/// How many distinct variables the records before e name.
pub fn distinct(s: &[u32], e: usize) -> u32
    ensures { Distinct (choose Variables (opensIn s.now 0 e)) result }
{
    let mut variables = NameSet::new();
    variables.extend(s, 0, e, Kind::Variables);
    variables.len()
}

/// The ceiling for v variables: v binding rounds, and v + 6,144 x (v + 1) rounds together.
pub fn most(v: u32) -> Most
    requires { v ≤ 256 }
    ensures { toldMost result ≡ ceilingFor v }
{
    Most {
        variables: v,
        rounds: v + 6144 * (v + 1),
    }
}
