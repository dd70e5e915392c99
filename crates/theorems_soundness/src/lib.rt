// What an accepted answer and a verdict are worth: theorems, each the contract of a function that does nothing.
#![tactic(auto)]

ghost use Rattle.theorems_soundness.specs.Theorems.{AcceptedIsSolvedForm, AcceptedIsTrue, PremiseIsNeeded, OwnAnswerIsConfirmed};
ghost use Rattle.theorems_soundness.specs.Theorems.{YesIsTrue, NoIsFailure, AcceptedCallIsSound, JudgedCallsAreSound};
ghost use Rattle.theorems_soundness.specs.Theorems.{OwnWordsAreConfirmed, EntriesPointAtTypes};
ghost use Rattle.theorems_soundness.specs.Theorems.{ViolatedIsFinal, NoneAccepted, NoneJudged, ViolatedCallIsFinal, ViolatedLimits};

/// An accepted answer is in solved form: a bound variable occurs on no type side, none is bound twice, bounds rise (`solved-form`).
pub fn accepted_is_solved_form<N>()
    ensures { AcceptedIsSolvedForm N }
{}

/// Of an accepted answer, under its premise, all bindings put in at once make every given constraint true (`accepted-true`).
pub fn accepted_is_true<N>()
    ensures { AcceptedIsTrue N }
{}

/// Without its premise that is false: K10, x y = x z then x = boolean, is accepted, and its answer is no solution (`k10-fails`, `premise-needed`).
pub fn premise_is_needed()
    ensures { PremiseIsNeeded }
{}

/// On the solver's own answer, under that premise, the judge says yes, or meets 7 or 8 (`own-answer`).
pub fn own_answer_is_confirmed<N>()
    ensures { OwnAnswerIsConfirmed N }
{}

/// The judge says yes only where all constraints are true, whoever proposed the bindings (`yes-solves`).
pub fn yes_is_true<N>()
    ensures { YesIsTrue N }
{}

/// The judge says no only where a constraint fails (`no-fails`).
pub fn no_is_failure<N>()
    ensures { NoIsFailure N }
{}

/// The third demand of the call: what `solveCall` accepts on any words is sound, and judged as above; `solve::solve` equals that call
/// (`solve-call`).
pub fn accepted_call_is_sound()
    ensures { AcceptedCallIsSound }
{}

/// Yes and no of the call `judgeCall`, which `judge::judge` equals (`judge-call-yes`, `judge-call-no`).
pub fn judged_calls_are_sound()
    ensures { JudgedCallsAreSound }
{}

/// What solving wrote is judged where it stands: it can always be proposed, and under the premise the judge says yes, 7 or 8 (`own-proposed`,
/// `own-words`).
pub fn own_words_are_confirmed()
    ensures { OwnWordsAreConfirmed }
{}

/// An entry points at a bound type, behind the record that begins the binding (`k2-entries`).
pub fn entries_point_at_types()
    ensures { EntriesPointAtTypes }
{}

/// No bindings make a Violated constraint true, except for an equality of two structs that differ in fields alone; that exception is exact
/// (`violated-final`, `exception-violated`, `exception-true`, `exception-fields`).
pub fn violated_is_final<N>()
    ensures { ViolatedIsFinal N }
{}

/// So no set that the solver accepts holds a Violated constraint, under the premise and except for that exception (`none-violated`).
pub fn none_accepted<N>()
    ensures { NoneAccepted N }
{}

/// Nor does a set to which the judge says yes (`none-judged`).
pub fn none_judged<N>()
    ensures { NoneJudged N }
{}

/// What `addCall` answers Violated is final in the same sense, on any words (`add-call`, `accepted-line`).
pub fn violated_call_is_final()
    ensures { ViolatedCallIsFinal }
{}

/// At the names of the examples a set that is accepted under the premise meets the exception; without the premise a set is accepted that holds
/// another Violated constraint (`exception-needed`, `premise-needed` of Violated).
pub fn violated_limits_are_needed()
    ensures { ViolatedLimits }
{}
