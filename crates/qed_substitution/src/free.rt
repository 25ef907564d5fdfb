// Free names of integers.
ghost use Rattle.std.specs.Prelude.{◌≡◌, ◌&&◌, true, false};
ghost use Rattle.std.specs.Str.{bytes_eq};
ghost use Rattle.qed_terms.specs.declared.head.Sort.TheVariants as sort;
ghost use Rattle.qed_terms.specs.Free.{is_free, free_among};
ghost use Rattle.qed_terms.specs.Nodes.{node_tree};
ghost use Rattle.qed_terms.specs.Tree.{kids_in, three};
ghost use Rattle.qed_terms.specs.View.{formula_tree, term_tree};

use qed_terms::{Formula, Node, Sort, Term};
use wp_base::Str;

/// Whether two names have the same bytes.
pub fn is_name(name: &Str, other: &Str) -> bool
    ensures { result ≡ bytes_eq name.now other.now }
{
    name.bytes() == other.bytes()
}

/// Whether the name of an integer is free in a term or a formula.
#[cycle(is_free)]
#[tactic(auto, using(qed_terms::proofs::Equations::tree_laws))]
pub fn is_free(name: &Str, node: Node<'_>) -> bool
    ensures { result ≡ is_free name.now sort.Int (node_tree node.entry) }
{
    match node {
        Node::Term(term) => match term {
            Term::Num(_) => false,
            Term::Var(other, sort) => match sort {
                Sort::Int => is_name(name, other),
                Sort::Memory => false,
                Sort::Table => false,
            },
            Term::Op(_, _) => is_free_in_kids(name, node),
            Term::Ite(_, _, _) => is_free_in_kids(name, node),
            Term::App(_, _) => is_free_in_kids(name, node),
        },
        Node::Formula(formula) => match formula {
            Formula::True => false,
            Formula::False => false,
            Formula::Rel(_, _) => is_free_in_kids(name, node),
            Formula::Not(_) => is_free_in_kids(name, node),
            Formula::And(_) => is_free_in_kids(name, node),
            Formula::Or(_) => is_free_in_kids(name, node),
            Formula::Imp(_, _) => is_free_in_kids(name, node),
            Formula::Iff(_, _) => is_free_in_kids(name, node),
            Formula::Forall(other, low, high, body) => {
                is_free_in_range(name, other, low.get(), high.get(), body.get())
            }
            Formula::Exists(other, low, high, body) => {
                is_free_in_range(name, other, low.get(), high.get(), body.get())
            }
        },
    }
}

#[cycle(is_free)]
fn is_free_in_kids(name: &Str, node: Node<'_>) -> bool
    ensures { result ≡ free_among false name.now sort.Int (kids_in (node_tree node.entry)) }
{
    for at in 0..node.kid_count() {
        if is_free(name, node.kid(at)) {
            return true;
        }
    }
    false
}

// In the bounds and the body of a quantifier over the other name.
#[cycle(is_free)]
fn is_free_in_range(name: &Str, other: &Str, low: &Term, high: &Term, body: &Formula) -> bool
    ensures { result ≡ free_among (bytes_eq name.now other.now && true) name.now sort.Int (three (term_tree low.now) (term_tree high.now) (formula_tree body.now)) }
{
    if is_free(name, Node::Term(low)) || is_free(name, Node::Term(high)) {
        return true;
    }
    !is_name(name, other) && is_free(name, Node::Formula(body))
}
