// What the changes of a branch ask for.
ghost use Rattle.std.specs.Prelude.{◌≡◌, ◌↔◌, true, map, IsTrue, OnOk, IfOk};
ghost use Rattle.qed_terms.specs.Setting.{is_regular};
ghost use Rattle.qed_terms.specs.Store.{KeepsOlder};
ghost use Rattle.qed_terms.specs.View.{view_setting};
ghost use Rattle.qed_rules.specs.Rules.{step};
ghost use Rattle.qed_simplify.specs.Normal.{Normal};
ghost use Rattle.branches.specs.Branch.{Branch};
ghost use Rattle.branches.specs.Ids.{branch_of, BranchHeld};
ghost use Rattle.branch_changes.specs.Changes.{Among, with_literal};
ghost use Rattle.branch_changes.specs.Givens.{may_put, may_stand_for, put};
ghost use Rattle.branch_changes.specs.Ids.{given_of};

use qed_terms::{IdBranch, Setting, Sort, TermStore};
use std::alloc::Global;
use wp_base::{NoMemory, Str};

/// A variable, by its name and sort, and the term that may stand for it.
#[derive(Drop)]
pub struct IdGiven<I> {
    pub name: Str,
    pub sort: Sort,
    pub term: I,
}

/// What closes a branch, and what brings formulas to normal form. What is kept between calls is the implementation's own, and `ready`
/// says that it fits the store.
pub trait ChangeRules<S: TermStore> {
    ghost ready: { Self → S → Type 0 };

    ghost closed: { Branch → Type 0 };

    /// Whether the branch with one more literal is closed.
    fn would_close(
        &mut self,
        alloc: Global,
        store: &S,
        branch: &IdBranch<S::Id>,
        literal: S::Id,
    ) -> Result<bool, NoMemory>
        requires ready { ready self.old store.now }
        requires held { BranchHeld (S.held store.now) branch.now }
        requires literal { S.held store.now literal }
        ensures ready { OnOk result (ready self.new store.now) }
        ensures closes { IfOk result (λ answer. IsTrue answer ↔ closed (with_literal (branch_of (S.tree store.now) branch.now) (S.tree store.now literal))) };

    /// Whether a formula is among the literals of the branch.
    fn is_literal(
        &mut self,
        alloc: Global,
        store: &S,
        branch: &IdBranch<S::Id>,
        formula: S::Id,
    ) -> Result<bool, NoMemory>
        requires ready { ready self.old store.now }
        requires held { BranchHeld (S.held store.now) branch.now }
        requires formula { S.held store.now formula }
        ensures ready { OnOk result (ready self.new store.now) }
        ensures among { IfOk result (λ answer. IsTrue answer ↔ Among (S.tree store.now formula) (map (S.tree store.now) branch.now.literals)) };

    /// The normal form of a formula, in a regular setting.
    fn normal(
        &mut self,
        alloc: Global,
        store: &mut S,
        formula: S::Id,
        world: &Setting,
    ) -> Result<S::Id, NoMemory>
        requires ready { ready self.old store.old }
        requires regular { is_regular (view_setting world.now) ≡ true }
        requires held { S.held store.old formula }
        ensures ready { OnOk result (ready self.new store.new) }
        ensures older { OnOk result (KeepsOlder (S.held store.old) (S.held store.new) (S.tree store.old) (S.tree store.new)) }
        ensures held { IfOk result (λ made. S.held store.new made) }
        ensures normal { IfOk result (λ made. Normal (step (view_setting world.now)) (S.tree store.old formula) (S.tree store.new made)) };

    /// Whether a term may be put in the places of a variable.
    fn may_put(
        &mut self,
        alloc: Global,
        store: &S,
        given: &IdGiven<S::Id>,
        formula: S::Id,
    ) -> Result<bool, NoMemory>
        requires ready { ready self.old store.now }
        requires term { S.held store.now given.now.term }
        requires held { S.held store.now formula }
        ensures ready { OnOk result (ready self.new store.now) }
        ensures may { IfOk result (λ answer. answer ≡ may_put (given_of (S.tree store.now) given.now) (S.tree store.now formula)) };

    /// The normal form of a formula with the term in the places of the variable.
    fn put(
        &mut self,
        alloc: Global,
        store: &mut S,
        given: &IdGiven<S::Id>,
        formula: S::Id,
        world: &Setting,
    ) -> Result<S::Id, NoMemory>
        requires ready { ready self.old store.old }
        requires regular { is_regular (view_setting world.now) ≡ true }
        requires term { S.held store.old given.now.term }
        requires stands { may_stand_for given.now.sort (S.tree store.old given.now.term) ≡ true }
        requires held { S.held store.old formula }
        requires may { may_put (given_of (S.tree store.old) given.now) (S.tree store.old formula) ≡ true }
        ensures ready { OnOk result (ready self.new store.new) }
        ensures older { OnOk result (KeepsOlder (S.held store.old) (S.held store.new) (S.tree store.old) (S.tree store.new)) }
        ensures held { IfOk result (λ made. S.held store.new made) }
        ensures normal { IfOk result (λ made. Normal (step (view_setting world.now)) (put (given_of (S.tree store.old) given.now) (S.tree store.old formula)) (S.tree store.new made)) };

    /// What fits a store fits it as long as older ids keep their trees.
    ghost still_ready: { (rules : Self) (store later : S) → ready rules store → KeepsOlder (S.held store) (S.held later) (S.tree store) (S.tree later) → ready rules later };
}
