// A set of dimension lines is refused only when nothing makes it true: theorems, each the contract of a function that does nothing.
#![tactic(auto)]

ghost use Rattle.theorems_completeness.specs.Theorems.{
  DimensionsDecided,
  CallComplete,
  RefusedThenNone,
  DimensionsNeeded,
  EachPartNeeded,
  WideSetsDecided,
  WideCallComplete,
  WideIsWider,
  FewerAreTrue,
  ConflictInPart,
  PartRefused,
  ConflictStays,
  WideNeeded,
};

/// Of a set of dimension lines the solver answers 5 exactly when no choice of dimensions makes all of them true, and what it accepts gives every
/// choice, by choosing the open variables; it stops with 7 and 8 alone (`only-7-and-8`, `five-exactly`, `all-choices`).
pub fn dimensions_decided<N>()
    ensures { DimensionsDecided N }
{}

/// The same of the call `solveCall`, which `solve::solve` equals, whatever is lent (`call-complete`).
pub fn call_is_complete()
    ensures { CallComplete }
{}

/// A set of dimension lines that is refused with 5 can't be saved by any assignment (`refused-then-none`).
pub fn refused_then_none()
    ensures { RefusedThenNone }
{}

/// Of sets with other constraints that is false: of K9, dimension x = boolean (`dimensions-needed`).
pub fn dimensions_are_needed()
    ensures { DimensionsNeeded }
{}

/// Of dimension lines less can't be said: examples without a choice, with many, with no choice of whole powers, and one that is refused with 7 though it has
/// a choice (`k13-none`, `two-things-none`, `any-completes`, `choices-differ`, `not-any`, `whole-none`, `k14-choice`).
pub fn each_part_is_needed()
    ensures { EachPartNeeded }
{}

/// The same of wide sets: the sides of an equality may be variables, and is-dimension of a dimension or a variable may stand in the set
/// (`wide-decided`).
pub fn wide_sets_decided<N>()
    ensures { WideSetsDecided N }
{}

/// The same of the call (`wide-complete`).
pub fn wide_call_is_complete()
    ensures { WideCallComplete }
{}

/// What was said of sets of dimensions and what is said of wide sets agree on sets of dimensions (`wider`).
pub fn wide_is_wider<N>()
    ensures { WideIsWider N }
{}

/// A choice that makes all constraints true makes all of any part of them true (`fewer`).
pub fn fewer_are_true<N>()
    ensures { FewerAreTrue N }
{}

/// Where a part of a set, wide, is refused with 5, no choice makes the set's wide lines true, whatever other lines stand in it (`part-refused`).
pub fn part_is_refused<N>()
    ensures { PartRefused N }
{}

/// The same of the call: no choice of dimensions saves a set with such a part (`conflict`).
pub fn conflict_in_part()
    ensures { ConflictInPart }
{}

/// No wide lines that are added to a part that is refused with 5 make the call accept the whole (`conflict-stays`).
pub fn conflict_stays()
    ensures { ConflictStays }
{}

/// Of sets that aren't wide completeness is false: of K9, dimension x = boolean (`wide-needed`).
pub fn wide_is_needed()
    ensures { WideNeeded }
{}
