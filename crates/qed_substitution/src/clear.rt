// Where a term may be put in the places of a name.
ghost use Rattle.std.specs.Prelude.{◌≡◌, false};
ghost use Rattle.qed_terms.specs.Nodes.{node_tree};
ghost use Rattle.qed_terms.specs.Tree.{kids_in, three};
ghost use Rattle.qed_terms.specs.View.{formula_tree, term_tree};
ghost use Rattle.qed_substitution.specs.Substitution.{is_clear, are_clear, is_clear_range, may_replace};

use crate::free::{is_free, is_name};
use qed_terms::{Formula, Node, Sort, Term};
use wp_base::Str;

// Whether no quantifier around a free place of the name binds a name of the term, where `under` says that one around the node does.
#[cycle(is_clear)]
#[tactic(auto, using(qed_terms::proofs::Equations::tree_laws))]
fn is_clear(under: bool, name: &Str, by: &Term, node: Node<'_>) -> bool
    ensures { result ≡ is_clear under name.now (term_tree by.now) (node_tree node.entry) }
{
    match node {
        Node::Term(term) => match term {
            Term::Num(_) => true,
            Term::Var(other, sort) => match sort {
                Sort::Int => !(under && is_name(name, other)),
                Sort::Memory => true,
                Sort::Table => true,
            },
            Term::Op(_, _) => are_clear(under, name, by, node),
            Term::Ite(_, _, _) => are_clear(under, name, by, node),
            Term::App(_, _) => are_clear(under, name, by, node),
        },
        Node::Formula(formula) => match formula {
            Formula::True => true,
            Formula::False => true,
            Formula::Rel(_, _) => are_clear(under, name, by, node),
            Formula::Not(_) => are_clear(under, name, by, node),
            Formula::And(_) => are_clear(under, name, by, node),
            Formula::Or(_) => are_clear(under, name, by, node),
            Formula::Imp(_, _) => are_clear(under, name, by, node),
            Formula::Iff(_, _) => are_clear(under, name, by, node),
            Formula::Forall(other, low, high, body) => {
                is_clear_range(under, name, by, other, low.get(), high.get(), body.get())
            }
            Formula::Exists(other, low, high, body) => {
                is_clear_range(under, name, by, other, low.get(), high.get(), body.get())
            }
        },
    }
}

#[cycle(is_clear)]
fn are_clear(under: bool, name: &Str, by: &Term, node: Node<'_>) -> bool
    ensures { result ≡ are_clear under name.now (term_tree by.now) (kids_in (node_tree node.entry)) }
{
    for at in 0..node.kid_count() {
        if !is_clear(under, name, by, node.kid(at)) {
            return false;
        }
    }
    true
}

// The bounds and the body of a quantifier over the other name.
#[cycle(is_clear)]
fn is_clear_range(
    under: bool,
    name: &Str,
    by: &Term,
    other: &Str,
    low: &Term,
    high: &Term,
    body: &Formula,
) -> bool
    ensures { result ≡ is_clear_range under name.now (term_tree by.now) other.now (three (term_tree low.now) (term_tree high.now) (formula_tree body.now)) }
{
    if !is_clear(under, name, by, Node::Term(low)) || !is_clear(under, name, by, Node::Term(high)) {
        return false;
    }
    if is_name(name, other) {
        return true;
    }
    let under = under || is_free(other, Node::Term(by));
    is_clear(under, name, by, Node::Formula(body))
}

/// Whether the term may be put in the places of the name: no quantifier around one of them binds a name of it.
pub fn may_replace(formula: &Formula, name: &Str, by: &Term) -> bool
    ensures { result ≡ may_replace name.now (term_tree by.now) (formula_tree formula.now) }
{
    is_clear(false, name, by, Node::Formula(formula))
}
