//! Are constraints and bindings that were written nested at most 64 deep?
ghost use Rattle.std.specs.Prelude.{◌≡◌, true, leb};
ghost use Rattle.rules.specs.Base.{all, max_of};
ghost use Rattle.rules.specs.Trees.{depthBinding, depthCon};
ghost use Rattle.records.specs.Good.{goodBinding, goodCon};

use names::tables::NameTable;
use records::inner::{con_end, type_end};
use rules::NESTED;
use types::{Bindings, Constraints};

/// Are constraints, which are well formed except for that, nested at most 64 deep?
pub fn constraints_flat(names: NameTable, cs: Constraints) -> bool
    requires { all (goodCon names.pool.now names.table.now 0) cs.trees.0 ≡ true }
    ensures { result ≡ leb (max_of depthCon cs.entry.trees.0) 64 }
{
    'constraints: for c in cs {
        let Some(_) = con_end(names, c.words, c.at) else {
            return false;
        };
    }
    true
}

/// The same of bindings.
pub fn bindings_flat(names: NameTable, bs: Bindings) -> bool
    requires { all (goodBinding names.pool.now names.table.now 0) bs.trees.0 ≡ true }
    ensures { result ≡ leb (max_of depthBinding bs.entry.trees.0) 64 }
{
    'bindings: for b in bs {
        let Some(_) = type_end(names, 0, b.to.words, b.to.at, NESTED) else {
            return false;
        };
    }
    true
}
