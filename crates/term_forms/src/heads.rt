// What heads are: sums, products, numbers, quantifiers, and the heads of integers.
ghost use Rattle.std.specs.Prelude.{◌≡◌};
ghost use Rattle.qed_terms.specs.declared.head.Head.TheVariants as h;
ghost use Rattle.qed_terms.specs.declared.head.Sort.TheVariants as sorts;
ghost use Rattle.qed_terms.specs.WellFormed.{same_sort};
ghost use Rattle.qed_linear.specs.Linear.{is_integer};
ghost use Rattle.same_terms.specs.SameTerms.{is_binder};
ghost use Rattle.same_terms.specs.Written.{is_sum, is_sum_op, is_product, is_product_op, number_in_head};

use qed_terms::{Head, Sort, TermOp};

/// Whether the head is a quantifier.
pub fn is_binder(head: &Head) -> bool
    ensures { result ≡ is_binder head.now }
{
    match head {
        Head::Forall(_) => true,
        Head::Exists(_) => true,
        _ => false,
    }
}

fn adds(op: &TermOp) -> bool
    ensures { result ≡ is_sum_op op.now }
{
    match op {
        TermOp::Add => true,
        _ => false,
    }
}

fn multiplies(op: &TermOp) -> bool
    ensures { result ≡ is_product_op op.now }
{
    match op {
        TermOp::Mul => true,
        _ => false,
    }
}

/// Whether it is that of a sum.
pub fn is_sum(head: &Head) -> bool
    ensures { result ≡ is_sum head.now }
{
    match head {
        Head::Term(op) => adds(op),
        _ => false,
    }
}

/// Whether it is that of a product.
pub fn is_product(head: &Head) -> bool
    ensures { result ≡ is_product head.now }
{
    match head {
        Head::Term(op) => multiplies(op),
        _ => false,
    }
}

/// The number that it is.
pub fn number_in(head: &Head) -> Option<i128>
    ensures { result ≡ number_in_head head.now }
{
    match head {
        Head::Num(value) => Some(*value),
        _ => None,
    }
}

fn makes_integer(op: &TermOp) -> bool
    ensures { result ≡ is_integer (h.Term op.now) }
{
    match op {
        TermOp::Store => false,
        TermOp::Alloc(_) => false,
        TermOp::Grow => false,
        _ => true,
    }
}

fn is_whole(sort: Sort) -> bool
    ensures { result ≡ same_sort sorts.Int sort }
{
    match sort {
        Sort::Int => true,
        Sort::Memory => false,
        Sort::Table => false,
    }
}

/// Whether a term with it means an integer.
pub fn is_integer(head: &Head) -> bool
    ensures { result ≡ is_integer head.now }
{
    match head {
        Head::Num(_) => true,
        Head::Var(_, sort) => is_whole(*sort),
        Head::Term(op) => makes_integer(op),
        Head::Ite => true,
        Head::App(_) => true,
        _ => false,
    }
}
