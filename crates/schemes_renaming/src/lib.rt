// Quantifying and instantiating as one replacing, and back again: theorems, each the contract of a function that does nothing.
#![tactic(auto)]

ghost use Rattle.schemes_renaming.specs.Theorems.{QuantifyingAtOnce, QuantifiedAndBack, SameTypeAgain};

/// Quantifying name after name is one replacing: of the handed numbers that are equal to an open name, the first decides (the theorem
/// `quantify-once`).
pub fn quantifying_at_once<N>()
    ensures { QuantifyingAtOnce N }
{}

/// Instantiating what quantifying gave, with the same names, gives the type and its bounds back, with products that are one variable to the
/// power 1 read as that variable, where no handed name is a parameter of the type (the theorem `back-again`).
pub fn quantified_and_back<N>()
    ensures { QuantifiedAndBack N }
{}

/// The type itself comes back where it has no product that is one variable to the power 1 (the theorem `type-again`).
pub fn same_type_again<N>()
    ensures { SameTypeAgain N }
{}
