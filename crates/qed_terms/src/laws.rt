// Laws of the definitions, each the contract of a function that does nothing.
ghost use Rattle.qed_terms.specs.Free.{MeaningOfFreeNames};
ghost use Rattle.qed_terms.specs.Fresh.{FreshNamesAreNew, FreshNamesDiffer};
ghost use Rattle.qed_terms.specs.Operators.{DivisionTruncates};
ghost use Rattle.qed_terms.specs.Order.{HeadsAreExact, OrderIsTotal};

/// Division rounds towards 0, and the remainder has the sign of the dividend (C11 6.5.5p6).
#[tactic(auto, using(crate::proofs::Division::division_truncates))]
pub fn division_truncates()
    ensures { DivisionTruncates }
{}

/// The order of terms is total, and two terms that tie are one term.
#[tactic(auto, using(crate::proofs::Total::order_is_total))]
pub fn order_is_total()
    ensures { OrderIsTotal }
{}

/// A term means the same wherever its free names do.
#[tactic(auto, using(crate::proofs::FreeNames::meaning_of_free_names))]
pub fn meaning_of_free_names()
    ensures { MeaningOfFreeNames }
{}

/// Two fresh names over bases without `#` are the same only where base and number are.
#[tactic(auto, using(crate::proofs::Freshness::fresh_names_differ))]
pub fn fresh_names_differ()
    ensures { FreshNamesDiffer }
{}

/// A fresh name has a `#`.
#[tactic(auto, using(crate::proofs::Freshness::fresh_names_are_new))]
pub fn fresh_names_are_new()
    ensures { FreshNamesAreNew }
{}

/// Two heads are equal exactly where they are one head.
pub fn heads_are_exact()
    ensures { HeadsAreExact }
{}
