//! The rules' own examples: that they come out is the contract of a function that does nothing.
ghost use Rattle.std.specs.Prelude.{◌≡◌, true, length};
ghost use Rattle.rules.specs.Base.{all};
ghost use Rattle.rules.specs.Examples.{examples, agrees};

/// K1 to K13, all thirteen: for each set of constraints, what adding it to the empty set leaves, what solving it answers and leaves in both buffers, and what
/// the judge says of an accepted answer (`examples`, `agrees`).
pub fn k1_to_k13()
    ensures thirteen { length examples ≡ 13 }
    ensures come_out { all agrees examples ≡ true }
{}
