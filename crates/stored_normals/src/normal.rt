// The normal form of what a store holds, by the normal form of the tree.
ghost use Rattle.std.specs.Prelude.{◌≡◌, true, OnOk, IfOk};
ghost use Rattle.qed_terms.specs.Setting.{is_regular};
ghost use Rattle.qed_terms.specs.Store.{KeepsOlder};
ghost use Rattle.qed_terms.specs.View.{formula_tree, term_tree, view_setting};
ghost use Rattle.qed_ids.specs.Made.{made_tree};
ghost use Rattle.qed_rules.specs.Rules.{step};
ghost use Rattle.qed_simplify.specs.Normal.{Normal};

use crate::lift::lift_node;
use qed_ids::{Made, lower_node};
use qed_simplify::{normal, normal_term};
use qed_terms::{Formula, Node, Setting, Term, TermStore};
use std::alloc::Global;
use wp_base::NoMemory;

fn term_normal<S: TermStore>(
    alloc: Global,
    store: &mut S,
    term: &Term,
    world: &Setting,
) -> Result<S::Id, NoMemory>
    requires { is_regular (view_setting world.now) ≡ true }
    ensures older { OnOk result (KeepsOlder (S.held store.old) (S.held store.new) (S.tree store.old) (S.tree store.new)) }
    ensures held { IfOk result (λ made. S.held store.new made) }
    ensures normal { IfOk result (λ made. Normal (step (view_setting world.now)) (term_tree term.now) (S.tree store.new made)) }
{
    let found = normal_term(alloc, term, world)?;
    let made = lift_node(alloc, store, Node::Term(&found))?;
    Ok(made)
}

fn formula_normal<S: TermStore>(
    alloc: Global,
    store: &mut S,
    formula: &Formula,
    world: &Setting,
) -> Result<S::Id, NoMemory>
    requires { is_regular (view_setting world.now) ≡ true }
    ensures older { OnOk result (KeepsOlder (S.held store.old) (S.held store.new) (S.tree store.old) (S.tree store.new)) }
    ensures held { IfOk result (λ made. S.held store.new made) }
    ensures normal { IfOk result (λ made. Normal (step (view_setting world.now)) (formula_tree formula.now) (S.tree store.new made)) }
{
    let found = normal(alloc, formula, world)?;
    let made = lift_node(alloc, store, Node::Formula(&found))?;
    Ok(made)
}

fn made_normal<S: TermStore>(
    alloc: Global,
    store: &mut S,
    read: &Made,
    world: &Setting,
) -> Result<S::Id, NoMemory>
    requires { is_regular (view_setting world.now) ≡ true }
    ensures older { OnOk result (KeepsOlder (S.held store.old) (S.held store.new) (S.tree store.old) (S.tree store.new)) }
    ensures held { IfOk result (λ made. S.held store.new made) }
    ensures normal { IfOk result (λ made. Normal (step (view_setting world.now)) (made_tree read.now) (S.tree store.new made)) }
{
    match read {
        Made::Term(term) => {
            let made = term_normal(alloc, store, term, world)?;
            Ok(made)
        }
        Made::Formula(formula) => {
            let made = formula_normal(alloc, store, formula, world)?;
            Ok(made)
        }
    }
}

/// The id of the normal form of a term or a formula, in a regular setting. Where that isn't well formed, which no goal of a text comes to, the
/// answer is `NoMemory`, since no store may hold it.
pub fn normal_in<S: TermStore>(
    alloc: Global,
    store: &mut S,
    id: S::Id,
    world: &Setting,
) -> Result<S::Id, NoMemory>
    requires regular { is_regular (view_setting world.now) ≡ true }
    requires held { S.held store.old id }
    ensures older { OnOk result (KeepsOlder (S.held store.old) (S.held store.new) (S.tree store.old) (S.tree store.new)) }
    ensures held { IfOk result (λ made. S.held store.new made) }
    ensures normal { IfOk result (λ made. Normal (step (view_setting world.now)) (S.tree store.old id) (S.tree store.new made)) }
{
    let read = lower_node(alloc, &*store, id)?;
    let made = made_normal(alloc, store, &read, world)?;
    Ok(made)
}
