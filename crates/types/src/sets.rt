//! Going over constraints, and over bindings.
ghost use Rattle.std.specs.Prelude.{◌≡◌, ◌+◌};
ghost use Rattle.std.specs.Iterator.{YieldsFirstBy, item_count};
ghost use Rattle.rules.specs.Trees.{sizeCon};
ghost use Rattle.types.specs.Shapes.{bindings_together, binding_of, bindings_of, constraints_together, con_of, cons_of};

use super::{Binding, Bindings, Constraint, Constraints, Type};
use records::View;
use records::seen::{length_at, view_at};

impl<'a> Constraint<'a> {
    /// How many records it has.
    pub fn len(self) -> usize
        ensures { result ≡ sizeCon self.entry.tree.0 }
    {
        length_at(self.words, self.at)
    }

    /// The place past its last record.
    pub fn end(self) -> usize
        ensures { result ≡ self.entry.at + sizeCon self.entry.tree.0 }
    {
        self.at + self.len()
    }
}

impl<'a> Constraints<'a> {
    /// The first, and those after it.
    pub fn split_first(self) -> Option<(Constraint<'a>, Constraints<'a>)>
        ensures { constraints_together result ≡ cons_of self.entry }
    {
        if self.end <= self.at {
            return None;
        }
        let words = self.words;
        let first = Constraint { words, at: self.at };
        let at = first.end();
        let rest = Constraints {
            words,
            at,
            end: self.end,
        };
        Some((first, rest))
    }
}

impl<'a> Iterator for Constraints<'a> {
    type Item = Constraint<'a>;

    ghost next_gives = { YieldsFirstBy con_of cons_of };

    ghost remaining = { item_count cons_of };

    fn next(&mut self) -> Option<Constraint<'a>> {
        let (first, rest) = self.split_first()?;
        *self = rest;
        Some(first)
    }
}

impl<'a> Bindings<'a> {
    /// The first, and those after it.
    pub fn split_first(self) -> Option<(Binding<'a>, Bindings<'a>)>
        ensures { bindings_together result ≡ bindings_of self.entry }
    {
        if self.end <= self.at {
            return None;
        }
        let words = self.words;
        match view_at(words, self.at) {
            View::Binding(name) => {
                let at = self.at + 1;
                let to = Type { words, at };
                let at = to.end();
                let rest = Bindings {
                    words,
                    at,
                    end: self.end,
                };
                Some((Binding { name, to }, rest))
            }
            _ => unreachable!(),
        }
    }
}

impl<'a> Iterator for Bindings<'a> {
    type Item = Binding<'a>;

    ghost next_gives = { YieldsFirstBy binding_of bindings_of };

    ghost remaining = { item_count bindings_of };

    fn next(&mut self) -> Option<Binding<'a>> {
        let (first, rest) = self.split_first()?;
        *self = rest;
        Some(first)
    }
}
