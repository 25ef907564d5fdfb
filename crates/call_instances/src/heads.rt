// Heads of terms, formulas and ids, and names that are parameters.
ghost use Rattle.std.specs.Prelude.{◌≡◌, ◌&&◌, IfOk};
ghost use Rattle.std.specs.Str.{bytes_eq};
ghost use Rattle.qed_terms.specs.Nodes.{node_tree};
ghost use Rattle.qed_terms.specs.Setting.{sort_of};
ghost use Rattle.qed_terms.specs.Tree.{head_of};
ghost use Rattle.qed_terms.specs.View.{formula_tree, term_tree};
ghost use Rattle.qed_terms.specs.WellFormed.{same_sort};
ghost use Rattle.qed_calls.specs.Calls.{is_term};
ghost use Rattle.qed_calls.specs.View.{param};
ghost use Rattle.call_instances.specs.Sorts.{head_sort, operator_sort};

use qed_terms::{Formula, Head, Node, Sort, Term, TermOp, TermStore};
use std::alloc::Global;
use wp_base::{NoMemory, Str};

// ---- copies of heads

#[tactic(auto, using(qed_terms::proofs::Equations::tree_laws))]
fn term_head(alloc: Global, term: &Term) -> Result<Head, NoMemory>
    ensures { IfOk result (λ head. head ≡ head_of (term_tree term.now)) }
{
    match term {
        Term::Num(value) => Ok(Head::Num(*value)),
        Term::Var(name, sort) => Ok(Head::Var(name.copy(alloc)?, *sort)),
        Term::Op(op, _) => Ok(Head::Term(op.copy(alloc)?)),
        Term::Ite(_, _, _) => Ok(Head::Ite),
        Term::App(name, _) => Ok(Head::App(name.copy(alloc)?)),
    }
}

#[tactic(auto, using(qed_terms::proofs::Equations::tree_laws))]
fn formula_head(alloc: Global, formula: &Formula) -> Result<Head, NoMemory>
    ensures { IfOk result (λ head. head ≡ head_of (formula_tree formula.now)) }
{
    match formula {
        Formula::True => Ok(Head::True),
        Formula::False => Ok(Head::False),
        Formula::Rel(op, _) => Ok(Head::Form(op.copy(alloc)?)),
        Formula::Not(_) => Ok(Head::Not),
        Formula::And(_) => Ok(Head::And),
        Formula::Or(_) => Ok(Head::Or),
        Formula::Imp(_, _) => Ok(Head::Imp),
        Formula::Iff(_, _) => Ok(Head::Iff),
        Formula::Forall(name, _, _, _) => Ok(Head::Forall(name.copy(alloc)?)),
        Formula::Exists(name, _, _, _) => Ok(Head::Exists(name.copy(alloc)?)),
    }
}

/// A copy of the head of a term or a formula.
pub fn node_head(alloc: Global, node: Node<'_>) -> Result<Head, NoMemory>
    ensures { IfOk result (λ head. head ≡ head_of (node_tree node.entry)) }
{
    match node {
        Node::Term(term) => term_head(alloc, term),
        Node::Formula(formula) => formula_head(alloc, formula),
    }
}

// ---- parameters

pub fn is_same_sort(left: Sort, right: Sort) -> bool
    ensures { result ≡ same_sort left right }
{
    match left {
        Sort::Int => match right {
            Sort::Int => true,
            Sort::Memory => false,
            Sort::Table => false,
        },
        Sort::Memory => match right {
            Sort::Int => false,
            Sort::Memory => true,
            Sort::Table => false,
        },
        Sort::Table => match right {
            Sort::Int => false,
            Sort::Memory => false,
            Sort::Table => true,
        },
    }
}

#[tactic(auto, using(qed_terms::proofs::Equations::tree_laws))]
fn param_name(own: &Term) -> &[u8]
    ensures { result.now ≡ (param own.now).name }
{
    match own {
        Term::Num(_) => &[],
        Term::Var(name, _) => name.bytes(),
        Term::Op(_, _) => &[],
        Term::Ite(_, _, _) => &[],
        Term::App(_, _) => &[],
    }
}

/// The sort of a parameter.
#[tactic(auto, using(qed_terms::proofs::Equations::tree_laws))]
pub fn param_sort(own: &Term) -> Sort
    ensures { result ≡ (param own.now).sort }
{
    match own {
        Term::Num(_) => Sort::Int,
        Term::Var(_, sort) => *sort,
        Term::Op(_, _) => Sort::Int,
        Term::Ite(_, _, _) => Sort::Int,
        Term::App(_, _) => Sort::Int,
    }
}

/// Whether a name of a sort is this parameter.
pub fn is_param(own: &Term, name: &Str, sort: Sort) -> bool
    ensures { result ≡ bytes_eq name.now (param own.now).name && same_sort sort (param own.now).sort }
{
    name.bytes() == param_name(own) && is_same_sort(sort, param_sort(own))
}

// ---- ids

fn operator_sort(op: &TermOp) -> Sort
    ensures { result ≡ operator_sort op.now }
{
    match op {
        TermOp::Store => Sort::Memory,
        TermOp::Alloc(_) | TermOp::Grow => Sort::Table,
        TermOp::Add
        | TermOp::Sub
        | TermOp::Mul
        | TermOp::Neg
        | TermOp::Div
        | TermOp::Mod
        | TermOp::Wrap(_)
        | TermOp::ShiftLeft
        | TermOp::ShiftRight
        | TermOp::BitAnd
        | TermOp::BitOr
        | TermOp::BitXor
        | TermOp::BitNot
        | TermOp::Load
        | TermOp::Count
        | TermOp::Len => Sort::Int,
    }
}

fn head_sort(head: &Head) -> Sort
    ensures { result ≡ head_sort head.now }
{
    match head {
        Head::Var(_, sort) => *sort,
        Head::Term(op) => operator_sort(op),
        Head::Num(_)
        | Head::Ite
        | Head::App(_)
        | Head::Form(_)
        | Head::True
        | Head::False
        | Head::Not
        | Head::And
        | Head::Or
        | Head::Imp
        | Head::Iff
        | Head::Forall(_)
        | Head::Exists(_) => Sort::Int,
    }
}

/// The sort of a term, by its head.
#[tactic(auto, using(crate::proofs::HeadSorts::sort_by_head))]
pub fn sort_at<S: TermStore>(store: &S, id: S::Id) -> Sort
    requires { S.held store.now id }
    ensures { result ≡ sort_of (S.tree store.now id) }
{
    head_sort(store.head(id))
}

fn is_term_head(head: &Head) -> bool
    ensures { result ≡ is_term head.now }
{
    match head {
        Head::Num(_) | Head::Var(_, _) | Head::Term(_) | Head::Ite | Head::App(_) => true,
        Head::Form(_)
        | Head::True
        | Head::False
        | Head::Not
        | Head::And
        | Head::Or
        | Head::Imp
        | Head::Iff
        | Head::Forall(_)
        | Head::Exists(_) => false,
    }
}

/// Whether an id stands for a term.
pub fn is_term_at<S: TermStore>(store: &S, id: S::Id) -> bool
    requires { S.held store.now id }
    ensures { result ≡ is_term (head_of (S.tree store.now id)) }
{
    is_term_head(store.head(id))
}
