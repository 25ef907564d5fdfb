// What an expansion goes by.
ghost use Rattle.std.specs.Prelude.{◌≡◌, ◌↔◌, true, List, map, All, IsTrue, OnOk, IfOk};
ghost use Rattle.qed_terms.specs.Tree.{Tree};
ghost use Rattle.qed_terms.specs.Store.{KeepsOlder};
ghost use Rattle.qed_terms.specs.Setting.{Setting, is_regular};
ghost use Rattle.qed_terms.specs.View.{view_setting};
ghost use Rattle.branches.specs.Steps.{LeadsToOne, Tried};
ghost use Rattle.branches.specs.Branch.{Branch};
ghost use Rattle.branches.specs.Ids.{branch_of, branch_made, BranchHeld, MadeHeld};

use qed_terms::{IdBranch, Setting, TermStore};
use std::alloc::Global;
use wp_base::{List, NoMemory};

/// What closes a branch, the changes of a branch, and the formulas that a round of instances adds. What is kept between calls, as what
/// is known of the literals so far, is the implementation's own: `ready` says that it fits the store.
pub trait BranchRules<S: TermStore> {
    ghost ready: { Self → S → Type 0 };

    ghost closed: { Branch → Type 0 };

    ghost change: { Setting → Branch → Branch → Type 0 };

    ghost round: { Setting → Branch → List Tree → Type 0 };

    /// Whether the branch is closed.
    fn is_closed(
        &mut self,
        alloc: Global,
        store: &S,
        branch: &IdBranch<S::Id>,
    ) -> Result<bool, NoMemory>
        requires ready { ready self.old store.now }
        requires held { BranchHeld (S.held store.now) branch.now }
        ensures ready { OnOk result (ready self.new store.now) }
        ensures closed { IfOk result (λ answer. IsTrue answer ↔ closed (branch_of (S.tree store.now) branch.now)) };

    /// The branch after the first change that applies, in a regular setting; none where none does.
    fn change(
        &mut self,
        alloc: Global,
        store: &mut S,
        branch: &IdBranch<S::Id>,
        world: &Setting,
    ) -> Result<Option<IdBranch<S::Id>>, NoMemory>
        requires ready { ready self.old store.old }
        requires regular { is_regular (view_setting world.now) ≡ true }
        requires held { BranchHeld (S.held store.old) branch.now }
        ensures ready { OnOk result (ready self.new store.new) }
        ensures older { OnOk result (KeepsOlder (S.held store.old) (S.held store.new) (S.tree store.old) (S.tree store.new)) }
        ensures held { IfOk result (MadeHeld (S.held store.new)) }
        ensures tried { IfOk result (λ made. Tried (change (view_setting world.now)) (branch_of (S.tree store.old) branch.now) (branch_made (S.tree store.new) made)) };

    /// The formulas that a round adds to the branch, in a regular setting.
    fn round(
        &mut self,
        alloc: Global,
        store: &mut S,
        branch: &IdBranch<S::Id>,
        world: &Setting,
    ) -> Result<List<S::Id>, NoMemory>
        requires ready { ready self.old store.old }
        requires regular { is_regular (view_setting world.now) ≡ true }
        requires held { BranchHeld (S.held store.old) branch.now }
        ensures ready { OnOk result (ready self.new store.new) }
        ensures older { OnOk result (KeepsOlder (S.held store.old) (S.held store.new) (S.tree store.old) (S.tree store.new)) }
        ensures held { IfOk result (All (S.held store.new)) }
        ensures adds { IfOk result (λ added. round (view_setting world.now) (branch_of (S.tree store.old) branch.now) (map (S.tree store.new) added)) };

    /// A round adds one list of formulas.
    ghost one_round: { (setting : Setting) → LeadsToOne (round setting) };
}
