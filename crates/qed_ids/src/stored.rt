// Formulas put into a store, and read from it.
ghost use Rattle.std.specs.Prelude.{◌≡◌, true, OnOk, IfOk};
ghost use Rattle.qed_terms.specs.Meaning.{World, Values, meaning};
ghost use Rattle.qed_terms.specs.Store.{KeepsOlder, is_well_formed};
ghost use Rattle.qed_terms.specs.View.{formula_tree};
ghost use Rattle.qed_ids.specs.Made.{is_formula, made_tree};

use crate::build::build;
use crate::made::{Made, as_formula};
use qed_terms::{Formula, TermStore, intern_formula};
use std::alloc::Global;
use wp_base::NoMemory;

/// The id of a formula. It stands for the formula's tree, so it means what the formula means.
pub fn lift<S: TermStore>(
    alloc: Global,
    store: &mut S,
    formula: &Formula,
) -> Result<S::Id, NoMemory>
    requires { is_well_formed (formula_tree formula.now) ≡ true }
    ensures older { OnOk result (KeepsOlder (S.held store.old) (S.held store.new) (S.tree store.old) (S.tree store.new)) }
    ensures held { IfOk result (λ id. S.held store.new id) }
    ensures stands { IfOk result (λ id. S.tree store.new id ≡ formula_tree formula.now) }
{
    let id = intern_formula(alloc, store, formula)?;
    Ok(id)
}

/// The term or the formula that an id stands for.
#[tactic(auto, using(crate::proofs::Nodes::node_laws))]
pub fn lower_node<S: TermStore>(alloc: Global, store: &S, id: S::Id) -> Result<Made, NoMemory>
    requires { S.held store.now id }
    ensures { IfOk result (λ made. made_tree made ≡ S.tree store.now id) }
{
    let mut kids = Vec::new(alloc);
    for kid in store.kids(id) {
        kids.push(lower_node(alloc, store, *kid)?)?;
    }
    build(alloc, store.head(id), kids)
}

/// The formula that an id stands for.
pub fn lower<S: TermStore>(alloc: Global, store: &S, id: S::Id) -> Result<Formula, NoMemory>
    requires held { S.held store.now id }
    requires formula { is_formula (S.tree store.now id) ≡ true }
    ensures { IfOk result (λ formula. formula_tree formula ≡ S.tree store.now id) }
{
    let made = lower_node(alloc, store, id)?;
    Ok(as_formula(made))
}
