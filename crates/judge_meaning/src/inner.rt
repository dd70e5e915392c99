//! Whether types mean the same: a dimension that is one variable to the power 1 reads as that variable, and structs count by their names and arguments only.
pub mod truth;

ghost use Rattle.std.specs.Prelude.{◌≡◌, Decides, List, false};
ghost use Rattle.rules.specs.Meaning.{means};
ghost use Rattle.rules.specs.Names.{Bytes, numbered};
ghost use Rattle.rules.specs.Plain.{plain, plainTys};
ghost use Rattle.judge_meaning.specs.Read.{ReadAs};

use types::{Head, Type, Types};

/// What a type is, where a dimension that is one variable to the power 1 is that variable.
fn read<'a>(t: Type<'a>) -> Head<'a>
    ensures { ReadAs result (plain t.entry.tree.0 false) }
{
    let head = t.head();
    let Head::Dimension(p) = head else {
        return head;
    };
    match p.alone() {
        Some(o) => Head::Open(o),
        None => Head::Dimension(p),
    }
}

/// Do the two types mean the same?
#[cycle(means)]
pub fn means(left: Type, right: Type) -> bool
    ensures { (names : List Bytes) → result ≡ means (numbered names) left.entry.tree.0 right.entry.tree.0 }
{
    match (read(left), read(right)) {
        (Head::Open(o), Head::Open(p)) => o == p,
        (Head::Basic(a), Head::Basic(b)) => a == b,
        (Head::Dimension(_), Head::Dimension(_)) => left.same(right),
        (Head::Function(ts), Head::Function(us)) => all_mean(ts, us),
        (Head::Struct(x, ts), Head::Struct(y, us)) => x == y && all_mean(ts, us),
        (Head::List(t), Head::List(u)) => means(t, u),
        _ => false,
    }
}

/// Are they as many types, each meaning the same as its partner?
#[cycle(means)]
fn all_mean(left: Types, right: Types) -> bool
    ensures { Decides result (plainTys left.entry.trees.0 false ≡ plainTys right.entry.trees.0 false) }
{
    let mut ts = left;
    let mut us = right;
    'pairs: while let (Some((t, more)), Some((u, others))) = (ts.split_first(), us.split_first()) {
        if !means(t, u) {
            return false;
        }
        ts = more;
        us = others;
    }
    ts.count == us.count
}
