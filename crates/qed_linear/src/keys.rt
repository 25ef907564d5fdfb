// Atoms by reference, as keys.
ghost use Rattle.std.specs.Prelude.{refl};
ghost use Rattle.std.specs.Ordering.{as_partial_cmp, eq_by_cmp, on};
ghost use Rattle.std.specs.Cmp.{eq_by_cmp_equiv, on_total, partial_equiv_from_equiv, partial_order_from_total};
ghost use Rattle.qed_terms.specs.Order.{tree_cmp};
ghost use Rattle.qed_terms.proofs.Total.{tree_total};
ghost use Rattle.qed_linear.specs.Totals.{key_tree};

use qed_terms::Term;
use std::cmp::Ordering;

/// A term by reference, in the order of terms.
#[derive(Clone, Copy)]
pub struct KeyedTerm<'a> {
    pub term: &'a Term,
}

impl PartialEq for KeyedTerm<'_> {
    ghost eq = { eq_by_cmp (on key_tree tree_cmp) };

    ghost laws = { partial_equiv_from_equiv (eq_by_cmp_equiv (on_total key_tree tree_total)) };

    fn eq(&self, other: &KeyedTerm<'_>) -> bool {
        self.term.compare(other.term) == Ordering::Equal
    }
}

impl Eq for KeyedTerm<'_> {
    ghost laws = { eq_by_cmp_equiv (on_total key_tree tree_total) };
}

impl PartialOrd for KeyedTerm<'_> {
    ghost partial_cmp = { as_partial_cmp (on key_tree tree_cmp) };

    ghost laws = { partial_order_from_total (on_total key_tree tree_total) };

    fn partial_cmp(&self, other: &KeyedTerm<'_>) -> Option<Ordering> {
        Some(self.cmp(other))
    }
}

impl Ord for KeyedTerm<'_> {
    ghost cmp = { on key_tree tree_cmp };

    ghost total = { on_total key_tree tree_total };

    ghost matches_partial_cmp = { λ a b. refl };

    ghost matches_eq = { λ a b. refl };

    fn cmp(&self, other: &KeyedTerm<'_>) -> Ordering {
        self.term.compare(other.term)
    }
}
