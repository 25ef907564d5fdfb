// What a head is for a variable: a place of it, or a quantifier that binds it. A quantifier's body is its third kid.
ghost use Rattle.std.specs.Prelude.{◌≡◌, ◌&&◌, ◌||◌, not};
ghost use Rattle.std.specs.Str.{bytes_eq};
ghost use Rattle.qed_terms.specs.Free.{binds, is_this};
ghost use Rattle.qed_terms.specs.WellFormed.{same_sort};
ghost use Rattle.stored_puts.specs.Kids.{is_body, is_place};

use qed_terms::{Head, Sort};

fn is_same(name: &[u8], other: &[u8]) -> bool
    ensures { result ≡ bytes_eq name.now other.now }
{
    name == other
}

/// Whether the head is this name.
pub fn is_this(name: &[u8], sort: Sort, head: &Head) -> bool
    ensures { result ≡ is_this name.now sort head.now }
{
    match head {
        Head::Var(other, of) => is_same(name, other.bytes()) && is_same_sort(sort, *of),
        Head::Num(_)
        | Head::Term(_)
        | Head::Ite
        | Head::App(_)
        | Head::Form(_)
        | Head::True
        | Head::False
        | Head::Not
        | Head::And
        | Head::Or
        | Head::Imp
        | Head::Iff
        | Head::Forall(_)
        | Head::Exists(_) => false,
    }
}

fn is_same_sort(sort: Sort, other: Sort) -> bool
    ensures { result ≡ same_sort sort other }
{
    match sort {
        Sort::Int => match other {
            Sort::Int => true,
            Sort::Memory | Sort::Table => false,
        },
        Sort::Memory => match other {
            Sort::Memory => true,
            Sort::Int | Sort::Table => false,
        },
        Sort::Table => match other {
            Sort::Table => true,
            Sort::Int | Sort::Memory => false,
        },
    }
}

/// Whether the head binds the name.
pub fn binds(name: &[u8], sort: Sort, head: &Head) -> bool
    ensures { result ≡ binds name.now sort head.now }
{
    match head {
        Head::Forall(other) | Head::Exists(other) => {
            is_same(name, other.bytes()) && is_same_sort(sort, Sort::Int)
        }
        Head::Num(_)
        | Head::Var(_, _)
        | Head::Term(_)
        | Head::Ite
        | Head::App(_)
        | Head::Form(_)
        | Head::True
        | Head::False
        | Head::Not
        | Head::And
        | Head::Or
        | Head::Imp
        | Head::Iff => false,
    }
}

/// Whether a term may be put at the head.
pub fn is_place(name: &[u8], sort: Sort, head: &Head) -> bool
    ensures { result ≡ is_place sort name.now head.now }
{
    match sort {
        Sort::Int => match head {
            Head::Var(other, of) => match of {
                Sort::Int => is_same(name, other.bytes()),
                Sort::Memory | Sort::Table => false,
            },
            Head::Num(_)
            | Head::Term(_)
            | Head::Ite
            | Head::App(_)
            | Head::Form(_)
            | Head::True
            | Head::False
            | Head::Not
            | Head::And
            | Head::Or
            | Head::Imp
            | Head::Iff
            | Head::Forall(_)
            | Head::Exists(_) => false,
        },
        Sort::Memory => match head {
            Head::Var(other, of) => match of {
                Sort::Memory => is_same(name, other.bytes()),
                Sort::Int | Sort::Table => false,
            },
            Head::Num(_)
            | Head::Term(_)
            | Head::Ite
            | Head::App(_)
            | Head::Form(_)
            | Head::True
            | Head::False
            | Head::Not
            | Head::And
            | Head::Or
            | Head::Imp
            | Head::Iff
            | Head::Forall(_)
            | Head::Exists(_) => false,
        },
        Sort::Table => false,
    }
}

/// Whether the head is a place that a quantifier around it covers.
pub fn is_hidden(name: &[u8], sort: Sort, head: &Head, under: bool) -> bool
    ensures { result ≡ (is_place sort name.now head.now && under) }
{
    is_place(name, sort, head) && under
}

/// Whether the kid at a place is the body of a quantifier.
#[tactic(auto, using(crate::proofs::Tests::third_is))]
pub fn is_body(quantified: bool, at: usize) -> bool
    ensures { result ≡ is_body quantified at }
{
    quantified && at == 2
}

/// Whether a name that is free in the kid is free in the node, too.
pub fn is_free_there(bound: bool, at: usize, free: bool) -> bool
    ensures { result ≡ (not (is_body bound at) && free) }
{
    !is_body(bound, at) && free
}

/// Whether a quantifier at the node or around it covers the kid.
pub fn is_under(covered: bool, at: usize, under: bool) -> bool
    ensures { result ≡ (is_body covered at || under) }
{
    is_body(covered, at) || under
}

/// Whether the kid isn't clear, and the name isn't bound there.
pub fn is_unclear_there(bound: bool, at: usize, clear: bool) -> bool
    ensures { result ≡ not (is_body bound at || clear) }
{
    !(is_body(bound, at) || clear)
}
