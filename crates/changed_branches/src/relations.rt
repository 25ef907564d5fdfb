// Relations of two terms in normal form, and the three formulas of a witness.
ghost use Rattle.std.specs.Prelude.{◌≡◌, [], ◌∷◌, true, map, All, OnOk, IfOk};
ghost use Rattle.qed_terms.specs.Setting.{is_regular};
ghost use Rattle.qed_terms.specs.Store.{KeepsOlder, is_well_formed, over};
ghost use Rattle.qed_terms.specs.Tree.{at_most, less};
ghost use Rattle.qed_terms.specs.View.{view_setting};
ghost use Rattle.qed_terms.specs.WellFormed.{fits, int};
ghost use Rattle.qed_rules.specs.Rules.{step};
ghost use Rattle.qed_simplify.specs.Normal.{Normal};
ghost use Rattle.branch_changes.specs.Changes.{EachTo};
ghost use Rattle.branch_changes.specs.Givens.{may_put, may_stand_for, put};
ghost use Rattle.branch_changes.specs.Ids.{given_of};

use branch_changes::{ChangeRules, IdGiven};
use qed_terms::{FormOp, Head, Setting, TermStore};
use std::alloc::Global;
use wp_base::NoMemory;

fn pair<I: Copy + Drop>(alloc: Global, first: I, second: I) -> Result<Vec<I>, NoMemory>
    ensures { IfOk result (λ list. list.items ≡ first ∷ second ∷ []) }
{
    let mut list = Vec::new(alloc);
    list.push(first)?;
    list.push(second)?;
    Ok(list)
}

fn triple<I: Copy + Drop>(alloc: Global, first: I, second: I, third: I) -> Result<Vec<I>, NoMemory>
    ensures { IfOk result (λ list. list.items ≡ first ∷ second ∷ third ∷ []) }
{
    let mut list = pair(alloc, first, second)?;
    list.push(third)?;
    Ok(list)
}

/// The normal form of a head over two terms.
fn related<S: TermStore, R: ChangeRules<S>>(
    alloc: Global,
    store: &mut S,
    rules: &mut R,
    head: Head,
    left: S::Id,
    right: S::Id,
    world: &Setting,
) -> Result<S::Id, NoMemory>
    requires ready { R.ready rules.old store.old }
    requires regular { is_regular (view_setting world.now) ≡ true }
    requires left { S.held store.old left }
    requires right { S.held store.old right }
    requires fit { is_well_formed (over head (S.tree store.old left ∷ S.tree store.old right ∷ [])) ≡ true }
    ensures ready { OnOk result (R.ready rules.new store.new) }
    ensures older { OnOk result (KeepsOlder (S.held store.old) (S.held store.new) (S.tree store.old) (S.tree store.new)) }
    ensures held { IfOk result (λ made. S.held store.new made) }
    ensures normal { IfOk result (λ made. Normal (step (view_setting world.now)) (over head (S.tree store.old left ∷ S.tree store.old right ∷ [])) (S.tree store.new made)) }
{
    let kids = pair(alloc, left, right)?;
    let id = store.make(head, kids.as_slice())?;
    let normal = rules.normal(alloc, store, id, world)?;
    Ok(normal)
}

/// That a term is at least the one, below the other, and has what is said of a variable, in normal form.
pub fn witness_normals<S: TermStore, R: ChangeRules<S>>(
    alloc: Global,
    store: &mut S,
    rules: &mut R,
    given: &IdGiven<S::Id>,
    low: S::Id,
    high: S::Id,
    body: S::Id,
    world: &Setting,
) -> Result<Vec<S::Id>, NoMemory>
    requires ready { R.ready rules.old store.old }
    requires regular { is_regular (view_setting world.now) ≡ true }
    requires term { S.held store.old given.now.term }
    requires low { S.held store.old low }
    requires high { S.held store.old high }
    requires body { S.held store.old body }
    requires term_fits { fits int (S.tree store.old given.now.term) ≡ true }
    requires low_fits { fits int (S.tree store.old low) ≡ true }
    requires high_fits { fits int (S.tree store.old high) ≡ true }
    requires stands { may_stand_for given.now.sort (S.tree store.old given.now.term) ≡ true }
    requires may { may_put (given_of (S.tree store.old) given.now) (S.tree store.old body) ≡ true }
    ensures ready { OnOk result (R.ready rules.new store.new) }
    ensures older { OnOk result (KeepsOlder (S.held store.old) (S.held store.new) (S.tree store.old) (S.tree store.new)) }
    ensures held { IfOk result (λ made. All (S.held store.new) made.items) }
    ensures normals { IfOk result (λ made. EachTo (Normal (step (view_setting world.now))) (at_most (S.tree store.old low) (S.tree store.old given.now.term) ∷ less (S.tree store.old given.now.term) (S.tree store.old high) ∷ put (given_of (S.tree store.old) given.now) (S.tree store.old body) ∷ []) (map (S.tree store.new) made.items)) }
{
    let first = related(
        alloc,
        store,
        rules,
        Head::Form(FormOp::AtMost),
        low,
        given.term,
        world,
    )?;
    let second = related(
        alloc,
        store,
        rules,
        Head::Form(FormOp::Less),
        given.term,
        high,
        world,
    )?;
    let third = rules.put(alloc, store, given, body, world)?;
    let made = triple(alloc, first, second, third)?;
    Ok(made)
}
