//! The rules 2 and 3: a variable that the other side doesn't contain is bound to it.
ghost use Rattle.std.specs.Prelude.{◌≡◌, List};
ghost use Rattle.rules.specs.Names.{Bytes, numbered};
ghost use Rattle.rules.specs.Refusals.{toldOption, toldOptionBy};
ghost use Rattle.rules.specs.Rounds.{bindTo};
ghost use Rattle.solve_step.specs.Bindings.{bound_to, either, firstBinding};

use types::Type;

/// A variable, and the type that it is to stand for.
#[derive(Clone, Copy)]
pub struct Binding<'a> {
    pub name: u32,
    pub to: Type<'a>,
}

/// The binding of a variable to a type, which must not contain it.
fn bound<'a>(name: Option<u32>, to: Type<'a>) -> Option<Binding<'a>>
    ensures { (names : List Bytes) → toldOptionBy bound_to result ≡ bindTo (numbered names) (toldOption name) to.entry.tree.0 }
{
    let name = name?;
    if to.contains(name) {
        return None;
    }
    Some(Binding { name, to })
}

/// The variable of the left side is bound to the right one, else that of the right side to the left one.
fn bind_either<'a>(
    x: Option<u32>,
    y: Option<u32>,
    left: Type<'a>,
    right: Type<'a>,
) -> Option<Binding<'a>>
    ensures { (names : List Bytes) → toldOptionBy bound_to result ≡ either (numbered names) (toldOption x) (toldOption y) left.entry.tree.0 right.entry.tree.0 }
{
    match bound(x, right) {
        Some(b) => Some(b),
        None => bound(y, left),
    }
}

/// A side that is a variable is bound; then one that is the product of one variable to the power 1.
pub fn first_binding<'a>(left: Type<'a>, right: Type<'a>) -> Option<Binding<'a>>
    ensures { (names : List Bytes) → toldOptionBy bound_to result ≡ firstBinding (numbered names) left.entry.tree.0 right.entry.tree.0 }
{
    match bind_either(left.variable(), right.variable(), left, right) {
        Some(b) => Some(b),
        None => bind_either(left.power_variable(), right.power_variable(), left, right),
    }
}
