// The rules of an expansion that looks late whether a branch is closed: where no literal waits.
ghost use Rattle.std.specs.Prelude.{◌↔◌, IsTrue};
ghost use Rattle.branches.specs.Ids.{branch_of, BranchHeld};
ghost use Rattle.qed_terms.specs.View.{view_setting};
ghost use Rattle.qed_rules.specs.Rules.{step};
ghost use Rattle.qed_simplify.specs.Normal.{Normal};
ghost use Rattle.branch_changes.specs.Changes.{Changes};
ghost use Rattle.instance_rows.specs.Round.{IsRound};
ghost use Rattle.instance_rows.proofs.Stated.{one_round};
ghost use Rattle.stored_normals.specs.Kept.{IsExact};
ghost use Rattle.stored_normals.proofs.Keeping.{later_kept};
ghost use Rattle.prover.specs.Prover.{IsReady};
ghost use Rattle.prover.specs.Late.{IsClosedLate, NoLiteralWaits};

use crate::links::LinkTest;
use branch_changes::{ChangeRules, IdGiven};
use branch_steps::change_branch;
use branches::{BranchRules, Kind, first_of};
use instance_rounds::round_of;
use qed_terms::{IdBranch, Setting, TermStore};
use std::alloc::Global;
use std::hash::Hash;
use stored_puts::{StoredRules, stored_rules};
use wp_base::{List, NoMemory};

/// The normal forms that were made so far.
#[derive(Drop)]
pub struct LateProver<I: Copy + Eq + Hash> {
    pub stored: StoredRules<I>,
}

/// A prover with no normal form yet.
pub fn new_late<S: TermStore>(alloc: Global, store: &S) -> LateProver<S::Id>
    requires { IsExact S.Id.eq }
    ensures { IsReady S.Id.eq (S.held store.now) (S.tree store.now) (view_setting result.stored.normals.setting) result.stored.normals.table.entries }
{
    let stored = stored_rules(alloc, store);
    LateProver { stored }
}

/// Whether no literal waits.
#[tactic(auto, using(crate::proofs::Waiting::none_is_first))]
fn no_literal_waits<S: TermStore>(store: &S, branch: &IdBranch<S::Id>) -> bool
    requires { BranchHeld (S.held store.now) branch.now }
    ensures { IsTrue result ↔ NoLiteralWaits (branch_of (S.tree store.now) branch.now) }
{
    first_of(store, branch.waiting.as_slice(), Kind::Literal).is_none()
}

impl<S: TermStore> ChangeRules<S> for LateProver<S::Id> {
    ghost ready = { λ p s. IsReady S.Id.eq (S.held s) (S.tree s) (view_setting p.stored.normals.setting) p.stored.normals.table.entries };

    ghost closed = { IsClosedLate };

    ghost still_ready = { λ p s later ready older. later_kept S.Id.eq (view_setting p.stored.normals.setting) (S.held s) (S.held later) (S.tree s) (S.tree later) p.stored.normals.table.entries older ready };

    fn would_close(
        &mut self,
        alloc: Global,
        store: &S,
        branch: &IdBranch<S::Id>,
        literal: S::Id,
    ) -> Result<bool, NoMemory> {
        if !no_literal_waits(store, branch) {
            return Ok(false);
        }
        let answer = closed_branches::would_close(alloc, store, &LinkTest, branch, literal)?;
        Ok(answer)
    }

    fn is_literal(
        &mut self,
        alloc: Global,
        store: &S,
        branch: &IdBranch<S::Id>,
        formula: S::Id,
    ) -> Result<bool, NoMemory> {
        let answer = closed_branches::is_literal(alloc, store, branch, formula)?;
        Ok(answer)
    }

    fn normal(
        &mut self,
        alloc: Global,
        store: &mut S,
        formula: S::Id,
        world: &Setting,
    ) -> Result<S::Id, NoMemory> {
        let made = self.stored.normal(alloc, store, formula, world)?;
        Ok(made)
    }

    fn may_put(
        &mut self,
        alloc: Global,
        store: &S,
        given: &IdGiven<S::Id>,
        formula: S::Id,
    ) -> Result<bool, NoMemory> {
        Ok(self.stored.may_put(store, given, formula))
    }

    fn put(
        &mut self,
        alloc: Global,
        store: &mut S,
        given: &IdGiven<S::Id>,
        formula: S::Id,
        world: &Setting,
    ) -> Result<S::Id, NoMemory> {
        let made = self.stored.put(alloc, store, given, formula, world)?;
        Ok(made)
    }
}

impl<S: TermStore> BranchRules<S> for LateProver<S::Id> {
    ghost ready = { λ p s. IsReady S.Id.eq (S.held s) (S.tree s) (view_setting p.stored.normals.setting) p.stored.normals.table.entries };

    ghost closed = { IsClosedLate };

    ghost change = { λ s. Changes (Normal (step s)) IsClosedLate };

    ghost round = { IsRound };

    fn is_closed(
        &mut self,
        alloc: Global,
        store: &S,
        branch: &IdBranch<S::Id>,
    ) -> Result<bool, NoMemory> {
        if !no_literal_waits(store, branch) {
            return Ok(false);
        }
        let answer = closed_branches::is_closed(alloc, store, &LinkTest, branch)?;
        Ok(answer)
    }

    fn change(
        &mut self,
        alloc: Global,
        store: &mut S,
        branch: &IdBranch<S::Id>,
        world: &Setting,
    ) -> Result<Option<IdBranch<S::Id>>, NoMemory> {
        let made = change_branch(alloc, store, self, branch, world)?;
        Ok(made)
    }

    fn round(
        &mut self,
        alloc: Global,
        store: &mut S,
        branch: &IdBranch<S::Id>,
        world: &Setting,
    ) -> Result<List<S::Id>, NoMemory> {
        let added = round_of(alloc, store, self, branch, world)?;
        Ok(added)
    }

    ghost one_round = { one_round };
}
