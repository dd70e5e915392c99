//! Every public call by its number, on what is lent. The programs that serve and that replay calls share this; docs/SERVE.md has the numbers.
#![tactic(auto)]

pub mod inner;
pub mod lists;
pub mod named;
pub mod values;

ghost use Rattle.std.specs.Prelude.{◌≡◌};
ghost use Rattle.calls_defined.specs.Dispatch.{served, dispatch};

use calls_defined::numbers::Call;
use calls_defined::told::{Told, asked, checked, counted, limited, solution, written};
use calls_defined::{Asked, Lists};
use judge_pairs::judge_pairs;
use lines::check_line;
use lists::{adding_to, batch, lent_told};
use named::{compared, entered, named};
use names::check_table;
use queries::{closed, contains, variables};
use records::{is_bindings, is_scheme, is_set, is_type};
use replace_calls::{replace_in_set, replace_in_type};
use schemes::{generalise, instantiate, quantify};
use solve::solve;
use solve_ceiling::ceiling;
use solve_confirm::confirm;
use values::{
    exponent_negation, exponent_product, exponent_quotient, exponent_sum, product_inverse,
    product_power, product_product, product_quotient,
};

/// The call that is asked for. What it says stands at the front of the result buffer, in `words` words. What is said, and what all that is lent holds
/// then, is `dispatch` (`calls_defined/specs/Dispatch`), a definition by call.
pub fn called(
    call: Call,
    q: Asked,
    lists: Lists,
    pool: &mut [u8],
    table: &mut [u32],
    res: &mut [u32],
    work: &mut [u32],
) -> Told
    ensures { served result pool.new table.new res.new work.new ≡
        dispatch q pool.old table.old lists.entry.a.now lists.entry.b.now lists.entry.c.now lists.entry.d.now res.old work.old call }
{
    let Lists { a, b, c, d } = lists;
    match call {
        Call::CheckTable => checked(check_table(pool, table)),
        Call::NameOf => named(pool, table, q.x, res),
        Call::Enter => entered(pool, table, b, res),
        Call::Compare => compared(a, b),
        Call::AddExponents => exponent_sum(a),
        Call::MultiplyExponents => exponent_product(a),
        Call::NegateExponent => exponent_negation(a),
        Call::DivideExponents => exponent_quotient(a),
        Call::MultiplyProducts => product_product(q, lists, pool, table, res),
        Call::DivideProducts => product_quotient(q, lists, pool, table, res),
        Call::InvertProduct => product_inverse(q, lists, pool, table, res),
        Call::RaiseProduct => product_power(q, lists, pool, table, res),
        Call::IsSet => checked(is_set(pool, table, a)),
        Call::IsType => checked(is_type(pool, table, a)),
        Call::IsScheme => checked(is_scheme(pool, table, a)),
        Call::IsBindings => checked(is_bindings(pool, table, a)),
        Call::Contains => asked(contains(pool, table, a, q.x, q.y == 1)),
        Call::Closed => asked(closed(pool, table, a)),
        Call::Variables => counted(variables(pool, table, a, q.y == 1, res)),
        Call::Add => adding_to(pool, table, a, q.x, b, res),
        Call::ReplaceInType => written(replace_in_type(pool, table, a, b, res, work)),
        Call::ReplaceInSet => written(replace_in_set(pool, table, a, b, res, work)),
        Call::Solve => solution(solve(pool, table, a, res, work)),
        Call::Lent => lent_told(pool, table, res, work),
        Call::Quantify => written(quantify(pool, table, a, b, c, res, work)),
        Call::Generalise => written(generalise(pool, table, a, b, res, work)),
        Call::Instantiate => written(instantiate(pool, table, a, b, res, work)),
        Call::Judge => asked(judge_pairs(pool, table, a, b, c, d, work)),
        Call::Ceiling => limited(ceiling(pool, table, a)),
        Call::SolveAll => batch(pool, table, a, b, q.x, res, work),
        Call::CheckLine => written(check_line(pool, table, a, b, c, d, res, work)),
        Call::Confirm => solution(confirm(pool, table, a, res, work)),
    }
}
