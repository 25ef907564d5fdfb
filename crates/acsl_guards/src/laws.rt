// What is so of guards, as laws.
ghost use Rattle.acsl_guards.specs.Meaning.{AllInRanges, RangesSayChains, SomeInRanges};
ghost use Rattle.acsl_guards.specs.Rules.{GuardsAreFirst};

/// A binder has a guard exactly where it is of type `integer` and some conjunct gives it its range, and then it is the first such conjunct.
pub fn guards_are_first()
    ensures { GuardsAreFirst }
{}

/// The universal quantifier over all integers is the one over the ranges of the guards.
pub fn all_in_ranges()
    ensures { AllInRanges }
{}

/// The same of the existential one.
pub fn some_in_ranges()
    ensures { SomeInRanges }
{}

/// Inside the ranges a guard in which its binder stands alone is true, so the other conjuncts say the same as all.
pub fn ranges_say_chains()
    ensures { RangesSayChains }
{}
