// Who says what of goals.
ghost use Rattle.std.specs.Prelude.{map, IfOk};
ghost use Rattle.qed_terms.specs.Tree.{Tree, goal_of};
ghost use Rattle.qed_terms.specs.View.{formula_tree};
ghost use Rattle.qed_terms.specs.declared.verdict.Verdict.{Verdict as Said};

use qed_terms::{Formula, Verdict};
use std::alloc::Global;
use wp_base::NoMemory;

/// Says of a goal whether it is proved, or why it isn't known to be valid.
pub trait Judge {
    /// What it may say of a goal.
    ghost says: { Self → Tree → Said → Type 0 };

    /// What it says of the goal that a claim holds where all that is known does.
    fn judge(&self, alloc: Global, known: &[Formula], claim: &Formula) -> Result<Verdict, NoMemory>
        ensures { IfOk result (λ verdict. says self.now (goal_of (map formula_tree known.now) (formula_tree claim.now)) verdict) };
}
