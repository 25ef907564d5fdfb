// Terms and formulas of any form put into a store, where it may hold them.
ghost use Rattle.std.specs.Prelude.{◌≡◌, OnOk, IfOk};
ghost use Rattle.qed_terms.specs.Nodes.{node_tree};
ghost use Rattle.qed_terms.specs.Tree.{head_of};
ghost use Rattle.qed_terms.specs.View.{formula_tree, term_tree};
ghost use Rattle.qed_terms.specs.Store.{KeepsOlder};

use crate::places::fits_over;
use qed_terms::{Formula, Head, Node, Term, TermStore};
use std::alloc::Global;
use wp_base::NoMemory;

#[tactic(auto, using(qed_terms::proofs::Equations::tree_laws))]
fn term_head(alloc: Global, term: &Term) -> Result<Head, NoMemory>
    ensures { IfOk result (λ head. head ≡ head_of (term_tree term.now)) }
{
    match term {
        Term::Num(value) => Ok(Head::Num(*value)),
        Term::Var(name, sort) => Ok(Head::Var(name.copy(alloc)?, *sort)),
        Term::Op(op, _) => Ok(Head::Term(op.copy(alloc)?)),
        Term::Ite(_, _, _) => Ok(Head::Ite),
        Term::App(name, _) => Ok(Head::App(name.copy(alloc)?)),
    }
}

#[tactic(auto, using(qed_terms::proofs::Equations::tree_laws))]
fn formula_head(alloc: Global, formula: &Formula) -> Result<Head, NoMemory>
    ensures { IfOk result (λ head. head ≡ head_of (formula_tree formula.now)) }
{
    match formula {
        Formula::True => Ok(Head::True),
        Formula::False => Ok(Head::False),
        Formula::Rel(op, _) => Ok(Head::Form(op.copy(alloc)?)),
        Formula::Not(_) => Ok(Head::Not),
        Formula::And(_) => Ok(Head::And),
        Formula::Or(_) => Ok(Head::Or),
        Formula::Imp(_, _) => Ok(Head::Imp),
        Formula::Iff(_, _) => Ok(Head::Iff),
        Formula::Forall(name, _, _, _) => Ok(Head::Forall(name.copy(alloc)?)),
        Formula::Exists(name, _, _, _) => Ok(Head::Exists(name.copy(alloc)?)),
    }
}

fn node_head(alloc: Global, node: Node<'_>) -> Result<Head, NoMemory>
    ensures { IfOk result (λ head. head ≡ head_of (node_tree node.entry)) }
{
    match node {
        Node::Term(term) => term_head(alloc, term),
        Node::Formula(formula) => formula_head(alloc, formula),
    }
}

/// The id of a term or a formula. Where it isn't well formed no store may hold it: the answer is then `NoMemory`, though memory may be left.
/// Such a formula is the normal form of one written by hand alone, which names an integer as a memory.
pub fn lift_node<S: TermStore>(
    alloc: Global,
    store: &mut S,
    node: Node<'_>,
) -> Result<S::Id, NoMemory>
    ensures older { OnOk result (KeepsOlder (S.held store.old) (S.held store.new) (S.tree store.old) (S.tree store.new)) }
    ensures held { IfOk result (λ id. S.held store.new id) }
    ensures stands { IfOk result (λ id. S.tree store.new id ≡ node_tree node.entry) }
{
    let head = node_head(alloc, node)?;
    let count = node.kid_count();
    let mut kids = Vec::with_capacity(alloc, count)?;
    for at in 0..count {
        let kid = lift_node(alloc, store, node.kid(at))?;
        kids.push(kid)?;
    }
    if !fits_over(&*store, &head, kids.as_slice()) {
        return Err(NoMemory);
    }
    let id = store.make(head, kids.as_slice())?;
    Ok(id)
}
