// The formulas `true` and `false`.
ghost use Rattle.std.specs.Prelude.{◌≡◌};
ghost use Rattle.qed_terms.specs.View.{formula_tree};
ghost use Rattle.qed_rules.specs.Rules.{truth_constant, is_truth_constant};

use qed_terms::Formula;

/// The one of this value.
#[tactic(auto, using(qed_terms::proofs::Equations::tree_laws))]
pub fn truth_constant(is: bool) -> Formula
    ensures { formula_tree result ≡ truth_constant is }
{
    if is { Formula::True } else { Formula::False }
}

/// Whether it is the one of this value.
#[tactic(auto, using(qed_terms::proofs::Equations::tree_laws))]
pub fn is_truth_constant(value: bool, formula: &Formula) -> bool
    ensures { result ≡ is_truth_constant value (formula_tree formula.now) }
{
    match formula {
        Formula::True => value,
        Formula::False => !value,
        Formula::Rel(_, _)
        | Formula::Not(_)
        | Formula::And(_)
        | Formula::Or(_)
        | Formula::Imp(_, _)
        | Formula::Iff(_, _)
        | Formula::Forall(_, _, _, _)
        | Formula::Exists(_, _, _, _) => false,
    }
}
