// What the changes of a branch ask of normal forms and of terms in the places of variables, answered with the normal forms that were made before.
ghost use Rattle.std.specs.Prelude.{◌≡◌, true, OnOk, IfOk};
ghost use Rattle.qed_terms.specs.Setting.{is_regular};
ghost use Rattle.qed_terms.specs.Store.{KeepsOlder};
ghost use Rattle.qed_terms.specs.View.{view_setting};
ghost use Rattle.qed_rules.specs.Rules.{step};
ghost use Rattle.qed_simplify.specs.Normal.{Normal};
ghost use Rattle.branch_changes.specs.Givens.{may_put, may_stand_for, put};
ghost use Rattle.branch_changes.specs.Ids.{given_of};
ghost use Rattle.stored_normals.specs.Kept.{AreNormals, IsExact};

use crate::clear::may_put;
use crate::free::is_free;
use crate::put::put_in;
use branch_changes::IdGiven;
use qed_terms::{Setting, TermStore};
use std::alloc::Global;
use std::hash::Hash;
use stored_normals::{Normals, no_normals, normal_kept};
use wp_base::NoMemory;

/// The normal forms that were made before.
#[derive(Drop)]
pub struct StoredRules<I: Copy + Eq + Hash> {
    pub normals: Normals<I>,
}

/// With no normal form yet.
pub fn stored_rules<S: TermStore>(alloc: Global, store: &S) -> StoredRules<S::Id>
    requires { IsExact S.Id.eq }
    ensures { AreNormals S.Id.eq (S.held store.now) (S.tree store.now) (view_setting result.normals.setting) result.normals.table.entries }
{
    StoredRules {
        normals: no_normals(alloc, store),
    }
}

impl<I: Copy + Eq + Hash> StoredRules<I> {
    /// The normal form of a term or a formula, in a regular setting.
    pub fn normal<S: TermStore<Id = I>>(
        &mut self,
        alloc: Global,
        store: &mut S,
        formula: I,
        world: &Setting,
    ) -> Result<I, NoMemory>
        requires ready { AreNormals I.eq (S.held store.old) (S.tree store.old) (view_setting self.old.normals.setting) self.old.normals.table.entries }
        requires regular { is_regular (view_setting world.now) ≡ true }
        requires held { S.held store.old formula }
        ensures ready { OnOk result (AreNormals I.eq (S.held store.new) (S.tree store.new) (view_setting self.new.normals.setting) self.new.normals.table.entries) }
        ensures older { OnOk result (KeepsOlder (S.held store.old) (S.held store.new) (S.tree store.old) (S.tree store.new)) }
        ensures held { IfOk result (λ made. S.held store.new made) }
        ensures normal { IfOk result (λ made. Normal (step (view_setting world.now)) (S.tree store.old formula) (S.tree store.new made)) }
    {
        let made = normal_kept(alloc, store, &mut self.normals, formula, world)?;
        Ok(made)
    }

    /// Whether a term may be put in the places of a variable.
    pub fn may_put<S: TermStore<Id = I>>(&self, store: &S, given: &IdGiven<I>, formula: I) -> bool
        requires term { S.held store.now given.now.term }
        requires held { S.held store.now formula }
        ensures { result ≡ may_put (given_of (S.tree store.now) given.now) (S.tree store.now formula) }
    {
        may_put(store, given, formula)
    }

    /// The normal form of a term or a formula with the term in the places of the variable. Where the variable isn't free, nothing is put.
    pub fn put<S: TermStore<Id = I>>(
        &mut self,
        alloc: Global,
        store: &mut S,
        given: &IdGiven<I>,
        formula: I,
        world: &Setting,
    ) -> Result<I, NoMemory>
        requires ready { AreNormals I.eq (S.held store.old) (S.tree store.old) (view_setting self.old.normals.setting) self.old.normals.table.entries }
        requires regular { is_regular (view_setting world.now) ≡ true }
        requires term { S.held store.old given.now.term }
        requires stands { may_stand_for given.now.sort (S.tree store.old given.now.term) ≡ true }
        requires held { S.held store.old formula }
        ensures ready { OnOk result (AreNormals I.eq (S.held store.new) (S.tree store.new) (view_setting self.new.normals.setting) self.new.normals.table.entries) }
        ensures older { OnOk result (KeepsOlder (S.held store.old) (S.held store.new) (S.tree store.old) (S.tree store.new)) }
        ensures held { IfOk result (λ made. S.held store.new made) }
        ensures normal { IfOk result (λ made. Normal (step (view_setting world.now)) (put (given_of (S.tree store.old) given.now) (S.tree store.old formula)) (S.tree store.new made)) }
    {
        if is_free(&*store, given.name.bytes(), given.sort, formula) {
            let put = put_in(alloc, store, given, formula)?;
            let made = self.normal(alloc, store, put, world)?;
            return Ok(made);
        }
        let kept = self.normal(alloc, store, formula, world)?;
        Ok(kept)
    }
}
