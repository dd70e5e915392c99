//! The calls that write records: adding, replacing, solving and schemes.
ghost use Rattle.std.specs.Prelude.{◌≡◌};
ghost use Rattle.rules.specs.Calls.{addCall, replaceTypeCall, replaceSetCall, solveCall, judgeCall, quantifyCall, generaliseCall, instantiateCall};
ghost use Rattle.rules.specs.Batches.{batchCall};
ghost use Rattle.rules.specs.Confirming.{confirmCall};
ghost use Rattle.rules.specs.Elimination.{eliminateCall};
ghost use Rattle.rules.specs.Lines.{checkLineCall};
ghost use Rattle.judge_pairs.specs.Pairs.{entriesIn};
ghost use Rattle.shupkelen.specs.Exports.{out, addedOut, writtenOut, solvedOut, batchOut, judgedOut, eliminatedOut};

use calls_defined::told::{added, asked, solution, written};
use engine::eliminate;
use judge_pairs::judge_pairs;
use library_words::answers::eliminated;
use library_words::hand;
use lines::check_line;
use replace_calls::{replace_in_set, replace_in_type};
use schemes::{generalise, instantiate, quantify};
use solve::solve;
use solve_add::add;
use solve_batch::solve_all;
use solve_confirm::confirm;

/// Tests a constraint, and stores it behind the first `count` records of the buffer (8,192 words or more), which are a set, unless it is satisfied. Says
/// 1 Satisfied, 2 Violated or 3 Unknown, and how many records the set has then. Refuses with 10, 8, 1, then 8 where the constraint has no room, and
/// leaves the buffer as it was.
#[unsafe(no_mangle)]
pub extern "C" fn shupkelen_add(
    pool: &[u8],
    table: &[u32],
    buffer: &mut [u32],
    count: usize,
    constraint: &[u32],
    answer: &mut [u32],
) -> u32
    ensures { out result answer.new buffer.new ≡ addedOut (addCall pool.now table.now buffer.old count constraint.now) answer.old }
{
    hand(
        added(add(pool, table, buffer, count, constraint), 0),
        answer,
    )
}

/// A type with bindings put in, everywhere, at the front of `res`; what is put in is not looked at again. Says how many records; the work buffer is left
/// all zero. Refuses with 10, 8, 1, 4, then 6, 7 and 8, and `res` is then as before.
#[unsafe(no_mangle)]
pub extern "C" fn shupkelen_replace_in_type(
    pool: &[u8],
    table: &[u32],
    words: &[u32],
    bindings: &[u32],
    res: &mut [u32],
    work: &mut [u32],
    answer: &mut [u32],
) -> u32
    ensures { out result answer.new (res.new, work.new) ≡ writtenOut (replaceTypeCall pool.now table.now words.now bindings.now res.old work.old) answer.old }
{
    hand(
        written(replace_in_type(pool, table, words, bindings, res, work)),
        answer,
    )
}

/// A set with bindings put in, everywhere, at the front of `res`; what is put in is not looked at again. Says how many records; the work buffer is left
/// all zero. Refuses with 10, 8, 1, 4, then 6, 7 and 8, and `res` is then as before.
#[unsafe(no_mangle)]
pub extern "C" fn shupkelen_replace_in_set(
    pool: &[u8],
    table: &[u32],
    set: &[u32],
    bindings: &[u32],
    res: &mut [u32],
    work: &mut [u32],
    answer: &mut [u32],
) -> u32
    ensures { out result answer.new (res.new, work.new) ≡ writtenOut (replaceSetCall pool.now table.now set.now bindings.now res.old work.old) answer.old }
{
    hand(
        written(replace_in_set(pool, table, set, bindings, res, work)),
        answer,
    )
}

/// Solves a set, round by round: the bindings, then the bounds (variables that may be any dimension), at the front of `res`. Says how many records of
/// bindings, how many bounds, a record each, and how many rounds were completed; the work buffer is left all zero. On 5 `res` begins with the constraints
/// that remain, and their records are said. Refuses with 10, 8, 1, 4, then 5, 6, 7 and 8. What is answered makes every constraint true where no variable that
/// stands in a dimension product of the set is bound to anything but a dimension or a variable, and elsewhere it may not (x y = x z is answered, with x
/// boolean): `shupkelen_confirm` answers only what does.
#[unsafe(no_mangle)]
pub extern "C" fn shupkelen_solve(
    pool: &[u8],
    table: &[u32],
    set: &[u32],
    res: &mut [u32],
    work: &mut [u32],
    answer: &mut [u32],
) -> u32
    ensures { out result answer.new (res.new, work.new) ≡ solvedOut (solveCall pool.now table.now set.now res.old work.old) answer.old }
{
    hand(solution(solve(pool, table, set, res, work)), answer)
}

/// Solves a set, and answers only what the judge confirms over the same set: what is answered makes every constraint of the set true, whatever the set. The
/// call to use where somebody relies on an answer. It writes and says what `shupkelen_solve` does, and refuses as it does; then, of what solving accepts,
/// with 7 or 8 where the judge meets them, and with 11 for its no. `res` is then as before; the rounds are those of solving. Two structs of one name and the
/// same arguments are the same type, whatever fields they have.
#[unsafe(no_mangle)]
pub extern "C" fn shupkelen_confirm(
    pool: &[u8],
    table: &[u32],
    set: &[u32],
    res: &mut [u32],
    work: &mut [u32],
    answer: &mut [u32],
) -> u32
    ensures { out result answer.new (res.new, work.new) ≡ solvedOut (confirmCall pool.now table.now set.now res.old work.old) answer.old }
{
    hand(solution(confirm(pool, table, set, res, work)), answer)
}

/// Solves up to 64 sets that stand back to back, each by itself; `lengths` has their records. Of each set four words go to `answers`: the refusal,
/// completed rounds, records of bindings (on 5: of what remains), bounds; `res` has their records back to back. Says how many these are together.
/// With n sets `res` has 8,192 n words and `answers` 4 n, or more. Refuses with 10, 8 and 1; a refused set doesn't stop those after it. Each answer is worth
/// what that of `shupkelen_solve` is: of an accepted set ask the judge, or `shupkelen_confirm`.
#[unsafe(no_mangle)]
pub extern "C" fn shupkelen_solve_all(
    pool: &[u8],
    table: &[u32],
    sets: &[u32],
    lengths: &[u32],
    res: &mut [u32],
    answers: &mut [u32],
    work: &mut [u32],
    answer: &mut [u32],
) -> u32
    ensures { out result answer.new (res.new, (answers.new, work.new)) ≡
        batchOut (batchCall pool.now table.now sets.now lengths.now res.old answers.old work.old) answer.old }
{
    hand(
        written(solve_all(pool, table, sets, lengths, res, answers, work)),
        answer,
    )
}

/// The second engine, for up to 24 equal-scalar constraints over up to 24 variables and up to 24 parameters and base dimensions: Gaussian elimination,
/// row by row. The bindings, or on 5 the constraints that remain, at the front of `res`; says how many records. Refuses with 10, 8, 1, 4, then 8 (another
/// set), 5 and 7.
#[unsafe(no_mangle)]
pub extern "C" fn shupkelen_eliminate(
    pool: &[u8],
    table: &[u32],
    set: &[u32],
    res: &mut [u32],
    work: &mut [u32],
    answer: &mut [u32],
) -> u32
    ensures { out result answer.new (res.new, work.new) ≡ eliminatedOut (eliminateCall pool.now table.now set.now res.old work.old) answer.old }
{
    hand(eliminated(eliminate(pool, table, set, res, work)), answer)
}

/// Is this a solution of the set, whoever proposed it? Entries are pairs of words: a variable's number, and the place of its type in `types`, in records;
/// an odd last word is not looked at. `bounds` has records of bounds. Says 1 for yes and 0 for no, and returns 0 for a no, too; the work buffer is left all
/// zero. Refuses with 10, 8 (over 2,048 pairs, too), 1 (an entry's number that no name has, too), 4, then 7 and 8.
#[unsafe(no_mangle)]
pub extern "C" fn shupkelen_judge(
    pool: &[u8],
    table: &[u32],
    set: &[u32],
    entries: &[u32],
    types: &[u32],
    bounds: &[u32],
    work: &mut [u32],
    answer: &mut [u32],
) -> u32
    ensures { out result answer.new work.new
        ≡ judgedOut (judgeCall pool.now table.now set.now (entriesIn entries.now) types.now bounds.now work.old) answer.old }
{
    hand(
        asked(judge_pairs(pool, table, set, entries, types, bounds, work)),
        answer,
    )
}

/// Checks a whole calculation line, and leaves the type of its last step at the front of `res`: says how many records. `steps` has four words a step, in
/// postfix order; `types` the records of the types that they point to; `lines` the places of the earlier lines' types there; `names` the numbers of names
/// lent for the steps, one each or more. Refuses with 10, 8, 1, 4 (a lent name is given twice, or used in the line), 3, then as solving does, and with 11
/// where the judge says no.
#[unsafe(no_mangle)]
pub extern "C" fn shupkelen_check_line(
    pool: &[u8],
    table: &[u32],
    steps: &[u32],
    types: &[u32],
    lines: &[u32],
    names: &[u32],
    res: &mut [u32],
    work: &mut [u32],
    answer: &mut [u32],
) -> u32
    ensures { out result answer.new (res.new, work.new) ≡
        writtenOut (checkLineCall pool.now table.now steps.now types.now lines.now names.now res.old work.old) answer.old }
{
    hand(
        written(check_line(pool, table, steps, types, lines, names, res, work)),
        answer,
    )
}

/// A scheme from a type and bounds: the handed names, numbers in `names`, become indices 0, 1, .. in their order. At the front of `res`; says how many
/// records. Refuses with 10, 8, 1 (a handed number that no name has, too), 4, then 8 of a scheme of over 2,048 records.
#[unsafe(no_mangle)]
pub extern "C" fn shupkelen_quantify(
    pool: &[u8],
    table: &[u32],
    words: &[u32],
    bounds: &[u32],
    names: &[u32],
    res: &mut [u32],
    work: &mut [u32],
    answer: &mut [u32],
) -> u32
    ensures { out result answer.new (res.new, work.new)
        ≡ writtenOut (quantifyCall pool.now table.now words.now bounds.now names.now res.old work.old) answer.old }
{
    hand(
        written(quantify(pool, table, words, bounds, names, res, work)),
        answer,
    )
}

/// The scheme generalised: of a concrete type all names are quantified, with those of the bounds that are among them; another scheme stays. At the front
/// of `res`; says how many records. Refuses with 10, 8, 1, 4, then 8 of a scheme of over 2,048 records.
#[unsafe(no_mangle)]
pub extern "C" fn shupkelen_generalise(
    pool: &[u8],
    table: &[u32],
    scheme: &[u32],
    bounds: &[u32],
    res: &mut [u32],
    work: &mut [u32],
    answer: &mut [u32],
) -> u32
    ensures { out result answer.new (res.new, work.new) ≡ writtenOut (generaliseCall pool.now table.now scheme.now bounds.now res.old work.old) answer.old }
{
    hand(
        written(generalise(pool, table, scheme, bounds, res, work)),
        answer,
    )
}

/// The type and then the bounds of a scheme, with the handed names in the place of its indices. At the front of `res`; says how many records. Refuses
/// with 10, 8, 1 (a handed number that no name has, too), 4, 9 (as many names as the scheme has must be handed), then 7.
#[unsafe(no_mangle)]
pub extern "C" fn shupkelen_instantiate(
    pool: &[u8],
    table: &[u32],
    scheme: &[u32],
    names: &[u32],
    res: &mut [u32],
    work: &mut [u32],
    answer: &mut [u32],
) -> u32
    ensures { out result answer.new (res.new, work.new) ≡ writtenOut (instantiateCall pool.now table.now scheme.now names.now res.old work.old) answer.old }
{
    hand(
        written(instantiate(pool, table, scheme, names, res, work)),
        answer,
    )
}
