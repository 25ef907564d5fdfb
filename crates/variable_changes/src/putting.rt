// Formulas with a term in the places of a variable, in normal form.
ghost use Rattle.std.specs.Prelude.{◌≡◌, ◌<◌, ◌+◌, ◌∷◌, [], ◌++◌, if◌then◌else◌, true, length, take, drop, map, All, OnOk, IfOk};
ghost use Rattle.std.specs.List.{list_all};
ghost use Rattle.qed_terms.specs.Setting.{is_regular};
ghost use Rattle.qed_terms.specs.Store.{KeepsOlder};
ghost use Rattle.qed_terms.specs.View.{view_setting};
ghost use Rattle.qed_rules.specs.Rules.{step};
ghost use Rattle.qed_simplify.specs.Normal.{Normal};
ghost use Rattle.branch_changes.specs.Changes.{EachTo};
ghost use Rattle.branch_changes.specs.Givens.{may_put, may_stand_for, put};
ghost use Rattle.branch_changes.specs.Ids.{given_of};
ghost use Rattle.variable_changes.specs.Found.{sorted, is_wanted};

use branch_changes::{ChangeRules, IdGiven};
use branches::{Kind, has_kind};
use qed_terms::{Setting, TermStore};
use std::alloc::Global;
use wp_base::NoMemory;

/// The items without the one at a place.
pub fn without<I: Copy + Drop>(alloc: Global, items: &[I], at: usize) -> Result<Vec<I>, NoMemory>
    requires { at < length items.now }
    ensures { IfOk result (λ list. list.items ≡ take at items.now ++ drop (at + 1) items.now) }
{
    let mut list = Vec::with_capacity(alloc, items.len())?;
    list.extend_from_slice(&items[..at])?;
    list.extend_from_slice(&items[at + 1..])?;
    Ok(list)
}

/// Some formulas with the term in the places of the variable, in normal form.
pub fn put_all<S: TermStore, R: ChangeRules<S>>(
    alloc: Global,
    store: &mut S,
    rules: &mut R,
    given: &IdGiven<S::Id>,
    ids: &[S::Id],
    world: &Setting,
) -> Result<Vec<S::Id>, NoMemory>
    requires ready { R.ready rules.old store.old }
    requires regular { is_regular (view_setting world.now) ≡ true }
    requires term { S.held store.old given.now.term }
    requires stands { may_stand_for given.now.sort (S.tree store.old given.now.term) ≡ true }
    requires held { All (S.held store.old) ids.now }
    requires may { list_all (may_put (given_of (S.tree store.old) given.now)) (map (S.tree store.old) ids.now) ≡ true }
    ensures ready { OnOk result (R.ready rules.new store.new) }
    ensures older { OnOk result (KeepsOlder (S.held store.old) (S.held store.new) (S.tree store.old) (S.tree store.new)) }
    ensures held { IfOk result (λ made. All (S.held store.new) made.items) }
    ensures normals { IfOk result (λ made. EachTo (Normal (step (view_setting world.now))) (map (put (given_of (S.tree store.old) given.now)) (map (S.tree store.old) ids.now)) (map (S.tree store.new) made.items)) }
{
    let mut made = Vec::new(alloc);
    for at in 0..ids.len() {
        let id = rules.put(alloc, store, given, ids[at], world)?;
        made.push(id)?;
    }
    Ok(made)
}

fn is_wanted<S: TermStore>(store: &S, id: S::Id, literals: bool) -> bool
    requires { S.held store.now id }
    ensures { result ≡ is_wanted literals (S.tree store.now id) }
{
    if literals {
        has_kind(Kind::Literal, store.head(id))
    } else {
        !has_kind(Kind::Literal, store.head(id))
    }
}

fn push_if<I: Copy + Drop>(items: &mut Vec<I>, wanted: bool, item: I) -> Result<(), NoMemory>
    ensures { OnOk result (items.new.items ≡ (if wanted then items.old.items ++ item ∷ [] else items.old.items)) }
{
    if wanted {
        items.push(item)?;
    }
    Ok(())
}

/// The formulas that are literals, or those that are none.
pub fn sorted<S: TermStore>(
    alloc: Global,
    store: &S,
    ids: &[S::Id],
    literals: bool,
) -> Result<Vec<S::Id>, NoMemory>
    requires { All (S.held store.now) ids.now }
    ensures held { IfOk result (λ made. All (S.held store.now) made.items) }
    ensures sorted { IfOk result (λ made. map (S.tree store.now) made.items ≡ sorted literals (map (S.tree store.now) ids.now)) }
{
    let mut made = Vec::new(alloc);
    for at in 0..ids.len() {
        let id = ids[at];
        push_if(&mut made, is_wanted(store, id, literals), id)?;
    }
    Ok(made)
}
