// Terms and formulas put into a store.
ghost use Rattle.std.specs.Prelude.{◌≡◌, true, OnOk, IfOk};
ghost use Rattle.qed_terms.specs.View.{formula_tree, term_tree};
ghost use Rattle.qed_terms.specs.Nodes.{node_tree};
ghost use Rattle.qed_terms.specs.Store.{KeepsOlder, is_well_formed};

use crate::node::Node;
use crate::store::TermStore;
use crate::term::{Formula, Term};
use std::alloc::Global;
use wp_base::NoMemory;

fn intern<S: TermStore>(alloc: Global, store: &mut S, node: Node<'_>) -> Result<S::Id, NoMemory>
    requires { is_well_formed (node_tree node) ≡ true }
    ensures older { OnOk result (KeepsOlder (S.held store.old) (S.held store.new) (S.tree store.old) (S.tree store.new)) }
    ensures held { IfOk result (λ id. S.held store.new id) }
    ensures stands { IfOk result (λ id. S.tree store.new id ≡ node_tree node.entry) }
{
    let head = node.head(alloc)?;
    let count = node.kid_count();
    let mut kids = Vec::with_capacity(alloc, count)?;
    for at in 0..count {
        let kid = intern(alloc, store, node.kid(at))?;
        kids.push(kid)?;
    }
    let id = store.make(head, kids.as_slice())?;
    Ok(id)
}

/// The id of a term in a store.
pub fn intern_term<S: TermStore>(
    alloc: Global,
    store: &mut S,
    term: &Term,
) -> Result<S::Id, NoMemory>
    requires { is_well_formed (term_tree term.now) ≡ true }
    ensures older { OnOk result (KeepsOlder (S.held store.old) (S.held store.new) (S.tree store.old) (S.tree store.new)) }
    ensures held { IfOk result (λ id. S.held store.new id) }
    ensures stands { IfOk result (λ id. S.tree store.new id ≡ term_tree term.now) }
{
    let id = intern(alloc, store, Node::Term(term))?;
    Ok(id)
}

/// The id of a formula in a store.
pub fn intern_formula<S: TermStore>(
    alloc: Global,
    store: &mut S,
    formula: &Formula,
) -> Result<S::Id, NoMemory>
    requires { is_well_formed (formula_tree formula.now) ≡ true }
    ensures older { OnOk result (KeepsOlder (S.held store.old) (S.held store.new) (S.tree store.old) (S.tree store.new)) }
    ensures held { IfOk result (λ id. S.held store.new id) }
    ensures stands { IfOk result (λ id. S.tree store.new id ≡ formula_tree formula.now) }
{
    let id = intern(alloc, store, Node::Formula(formula))?;
    Ok(id)
}
