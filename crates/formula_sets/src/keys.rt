// Formulas by reference, as keys.
ghost use Rattle.std.specs.Prelude.{refl};
ghost use Rattle.std.specs.Ordering.{as_partial_cmp, eq_by_cmp, on};
ghost use Rattle.std.specs.Cmp.{eq_by_cmp_equiv, on_total, partial_equiv_from_equiv, partial_order_from_total};
ghost use Rattle.qed_terms.specs.Order.{tree_cmp};
ghost use Rattle.qed_terms.proofs.Total.{tree_total};
ghost use Rattle.formula_sets.specs.Sets.{key_tree};

use qed_terms::Formula;
use std::cmp::Ordering;

/// A formula by reference, in the order of formulas.
#[derive(Clone, Copy)]
pub struct Keyed<'a> {
    pub formula: &'a Formula,
}

impl PartialEq for Keyed<'_> {
    ghost eq = { eq_by_cmp (on key_tree tree_cmp) };

    ghost laws = { partial_equiv_from_equiv (eq_by_cmp_equiv (on_total key_tree tree_total)) };

    fn eq(&self, other: &Keyed<'_>) -> bool {
        self.formula.compare(other.formula) == Ordering::Equal
    }
}

impl Eq for Keyed<'_> {
    ghost laws = { eq_by_cmp_equiv (on_total key_tree tree_total) };
}

impl PartialOrd for Keyed<'_> {
    ghost partial_cmp = { as_partial_cmp (on key_tree tree_cmp) };

    ghost laws = { partial_order_from_total (on_total key_tree tree_total) };

    fn partial_cmp(&self, other: &Keyed<'_>) -> Option<Ordering> {
        Some(self.cmp(other))
    }
}

impl Ord for Keyed<'_> {
    ghost cmp = { on key_tree tree_cmp };

    ghost total = { on_total key_tree tree_total };

    ghost matches_partial_cmp = { λ a b. refl };

    ghost matches_eq = { λ a b. refl };

    fn cmp(&self, other: &Keyed<'_>) -> Ordering {
        self.formula.compare(other.formula)
    }
}
