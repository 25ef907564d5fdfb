// Which variables heads are, and for which a term may stand.
ghost use Rattle.std.specs.Prelude.{◌≡◌, ◌&&◌, IfOk};
ghost use Rattle.qed_terms.specs.declared.head.Head.TheVariants as h;
ghost use Rattle.qed_terms.specs.Tree.{head_of};
ghost use Rattle.qed_terms.specs.WellFormed.{same_sort, takes_term, takes_name, made_by, argument};
ghost use Rattle.branch_changes.specs.Givens.{may_stand_for, variable};
ghost use Rattle.equality_variables.specs.Heads.{stands_for};

use goal_words::name_sort;
use qed_terms::{Head, Sort, TermOp, TermStore};
use std::alloc::Global;
use wp_base::{NoMemory, Str};

pub fn is_same(sort: Sort, other: Sort) -> bool
    ensures { result ≡ same_sort sort other }
{
    match sort {
        Sort::Int => matches!(other, Sort::Int),
        Sort::Memory => matches!(other, Sort::Memory),
        Sort::Table => matches!(other, Sort::Table),
    }
}

/// What an operator makes.
fn made_by(op: &TermOp) -> Sort
    ensures { result ≡ made_by op.now }
{
    match op {
        TermOp::Store => Sort::Memory,
        TermOp::Alloc(_) => Sort::Table,
        TermOp::Grow => Sort::Table,
        _ => Sort::Int,
    }
}

/// Whether an integer or a memory is wanted: tables are no arguments.
fn is_argument(sort: Sort) -> bool
    ensures { result ≡ takes_term argument sort }
{
    match sort {
        Sort::Int => true,
        Sort::Memory => true,
        Sort::Table => false,
    }
}

/// Whether a name is one of this sort where it is an argument.
fn is_argument_name(sort: Sort, name: &[u8]) -> bool
    ensures { result ≡ takes_name argument sort name.now }
{
    match sort {
        Sort::Int => is_same(name_sort(name), Sort::Int),
        Sort::Memory => is_same(name_sort(name), Sort::Memory),
        Sort::Table => false,
    }
}

/// Whether a well formed term with this head may stand for a variable of the sort.
fn stands_for(sort: Sort, head: &Head) -> bool
    ensures { result ≡ stands_for sort head.now }
{
    match head {
        Head::Num(_) => is_same(sort, Sort::Int),
        Head::Var(name, own) => is_same(sort, *own) && is_argument_name(*own, name.bytes()),
        Head::Term(op) => is_same(sort, made_by(op)) && is_argument(made_by(op)),
        Head::Ite => is_same(sort, Sort::Int),
        Head::App(_) => is_same(sort, Sort::Int),
        _ => false,
    }
}

/// Whether a term may stand for a variable of the sort, wherever this may stand.
pub fn may_stand_for<S: TermStore>(store: &S, sort: Sort, id: S::Id) -> bool
    requires { S.held store.now id }
    ensures { result ≡ may_stand_for sort (S.tree store.now id) }
{
    stands_for(sort, store.head(id))
}

/// The name of the variable of this sort that a term is.
pub fn variable<S: TermStore>(
    alloc: Global,
    store: &S,
    sort: Sort,
    id: S::Id,
) -> Result<Option<Str>, NoMemory>
    requires { S.held store.now id }
    ensures { IfOk result (λ name. name ≡ variable sort (head_of (S.tree store.now id))) }
{
    match store.head(id) {
        Head::Var(name, own) => {
            if !is_same(sort, *own) {
                return Ok(None);
            }
            let name = name.copy(alloc)?;
            Ok(Some(name))
        }
        _ => Ok(None),
    }
}
