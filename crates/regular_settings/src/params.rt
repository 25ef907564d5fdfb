// Parameters of functions, which are names.
ghost use Rattle.std.specs.Prelude.{◌≡◌, ◌&&◌, drop, slice_get};
ghost use Rattle.std.specs.List.{list_all, list_any};
ghost use Rattle.std.specs.Str.{bytes_eq};
ghost use Rattle.qed_terms.specs.Setting as spec;
ghost use Rattle.qed_terms.specs.WellFormed.{same_sort};
ghost use Rattle.regular_settings.specs.View.{param, params};

use goal_words::{is_name, name_sort};
use qed_terms::{Sort, Term};

pub(crate) fn is_same_sort(left: Sort, right: Sort) -> bool
    ensures { result ≡ same_sort left right }
{
    match left {
        Sort::Int => match right {
            Sort::Int => true,
            Sort::Memory => false,
            Sort::Table => false,
        },
        Sort::Memory => match right {
            Sort::Int => false,
            Sort::Memory => true,
            Sort::Table => false,
        },
        Sort::Table => match right {
            Sort::Int => false,
            Sort::Memory => false,
            Sort::Table => true,
        },
    }
}

#[tactic(auto, using(qed_terms::proofs::Equations::tree_laws))]
pub(crate) fn param_name(name: &Term) -> &[u8]
    ensures { result.now ≡ (param name.now).name }
{
    match name {
        Term::Num(_) => &[],
        Term::Var(name, _) => name.bytes(),
        Term::Op(_, _) => &[],
        Term::Ite(_, _, _) => &[],
        Term::App(_, _) => &[],
    }
}

#[tactic(auto, using(qed_terms::proofs::Equations::tree_laws))]
pub(crate) fn param_sort(name: &Term) -> Sort
    ensures { result ≡ (param name.now).sort }
{
    match name {
        Term::Num(_) => Sort::Int,
        Term::Var(_, sort) => *sort,
        Term::Op(_, _) => Sort::Int,
        Term::Ite(_, _, _) => Sort::Int,
        Term::App(_, _) => Sort::Int,
    }
}

/// Whether this is a name, of the sort that its form tells.
pub fn is_param(name: &Term) -> bool
    ensures { result ≡ spec.is_param (param name.now) }
{
    let bytes = param_name(name);
    is_name(bytes) && is_same_sort(param_sort(name), name_sort(bytes))
}

// Whether this name of this sort is the parameter.
fn is_this(own: &Term, name: &[u8], sort: Sort) -> bool
    ensures { result ≡ (bytes_eq name.now (param own.now).name && same_sort sort (param own.now).sort) }
{
    name == param_name(own) && is_same_sort(sort, param_sort(own))
}

/// Whether a parameter from this place on has this name and sort.
#[tactic(auto, using(crate::proofs::Passing::any_laws))]
pub(crate) fn is_among(names: &[Term], from: usize, name: &[u8], sort: Sort) -> bool
    ensures { result ≡ list_any (spec.same_param (record { name = name.now; sort = sort })) (params (drop from names.now)) }
{
    for at in from..names.len() {
        if is_this(&names[at], name, sort) {
            return true;
        }
    }
    false
}

/// Whether all of these are names, each of the sort that its form tells.
#[tactic(auto, using(crate::proofs::Passing::all_laws))]
pub(crate) fn are_params(names: &[Term]) -> bool
    ensures { result ≡ list_all spec.is_param (params names.now) }
{
    for at in 0..names.len() {
        if !is_param(&names[at]) {
            return false;
        }
    }
    true
}

/// Whether no two parameters have one name and one sort.
#[tactic(auto, using(crate::proofs::Passing::differ_laws))]
pub fn all_differ(names: &[Term]) -> bool
    ensures { result ≡ spec.all_differ spec.same_param (params names.now) }
{
    for at in 0..names.len() {
        let name = param_name(&names[at]);
        if is_among(names, at + 1, name, param_sort(&names[at])) {
            return false;
        }
    }
    true
}

/// Whether the parameter at a place is there and an integer.
pub(crate) fn is_int_param(names: &[Term], at: usize) -> bool
    ensures { result ≡ spec.is_int_param (slice_get (params names.now) at) }
{
    match names.get(at) {
        Some(name) => is_same_sort(param_sort(name), Sort::Int),
        None => false,
    }
}
