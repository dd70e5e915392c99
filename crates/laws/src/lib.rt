// Laws of the rules by themselves. The lemmas stand in specs/, where the proofs of other crates cite them; here each main law is the contract of
// a function that does nothing.
#![tactic(auto)]

ghost use Rattle.laws.specs.Theorems.{ClosedStays, ReplacingKeepsGood, ReplacedIsGone};
ghost use Rattle.laws.specs.Theorems.{AbsentVariableStays, OnlyBindingDeepens};
ghost use Rattle.laws.specs.Theorems.{BoundedIsExact, ExponentField, ProductGroup};
ghost use Rattle.laws.specs.Theorems.{WrittenIsRead, ReadIsWritten, ReadIsShallow};

/// A type in which nothing is open stays as it is when names are replaced, whatever the limits (`closed_same`).
pub fn closed_types_stay<N>()
    ensures { ClosedStays N }
{}

/// Replacing by well formed types makes of a well formed product, type, constraint or binding a well formed one, or refuses (`product-kept`,
/// `ty_kept`, `con-kept`, `binding-kept`).
pub fn replacing_keeps_well_formed<N>()
    ensures { ReplacingKeepsGood N }
{}

/// A variable that is replaced by a type in which it does not occur is gone; and each open name that then stands there is one of the type put in, or
/// another one that stood there before (`ty-on`, `con-on`).
pub fn replaced_variable_is_gone<N>()
    ensures { ReplacedIsGone N }
{}

/// A type put in for a variable changes nothing where the variable does not occur (`absent`, `ty_same`, `con_same`).
pub fn absent_variable_stays<N>()
    ensures { AbsentVariableStays N }
{}

/// What a rule puts in the place of a constraint, or binds, is nested no deeper than the constraint (`step-within`); so after a round that bound
/// nothing a state that kept the limit of nesting keeps it (`split-counted`, `done-counted`).
pub fn only_binding_deepens<N>()
    ensures { OnlyBindingDeepens N }
{}

/// Where bounded arithmetic, replacing and solving answer, the exact ones answer the same (`sum_below`, `ty_below`, `con-below`, `run-below` and
/// their like).
pub fn bounded_answers_are_exact<N>()
    ensures { BoundedIsExact N }
{}

/// Exponents in lowest terms are a field: its operations don't leave it, and its laws hold (`nought-lowest` to `mul-plus`).
pub fn exponents_are_a_field()
    ensures { ExponentField }
{}

/// Products as they are held are a commutative group with powers: its operations don't leave it, and its laws hold; multiplying adds the powers of
/// each atom, and the powers decide the product (`merge-proper` to `inverse-inverse`).
pub fn products_are_a_group<N>()
    ensures { ProductGroup N }
{}

/// What was written is read back: factors, types, constraints, bindings, bounds and sets, so that words hold one set at the most (`read-factors`,
/// `read-ty`, `read-con`, `read-binding`, `read-bound`, `read_set`, `words_back`, `one_set`).
pub fn written_is_read_back()
    ensures { WrittenIsRead }
{}

/// What was read is what stands there: a record's length is that of its part, and a list with a false length is no list (`factors-read`, `ty-read`,
/// `con-read`, `binding-read`, `bound-read`, `all_read`, `taken`).
pub fn read_is_what_stands()
    ensures { ReadIsWritten }
{}

/// What is read with a nesting limit is no deeper than the limit (`depth-read`).
pub fn read_is_within_the_limit()
    ensures { ReadIsShallow }
{}
