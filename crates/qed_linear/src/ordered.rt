// Factors of products, in order.
ghost use Rattle.std.specs.Prelude.{◌≡◌, ◌≤◌, [], ◌∷◌, map, length, if◌then◌else◌, IfOk, OnOk};
ghost use Rattle.qed_terms.specs.Tree.{head_of, node, trees_of};
ghost use Rattle.qed_terms.specs.View.{term_tree};
ghost use Rattle.qed_terms.specs.declared.head.Head.TheVariants as h;
ghost use Rattle.qed_linear.specs.Linear.{is_factor, are_factors, is_product, factors_of, is_single, times_of, factor_trees, insert_factor, insert_factors, is_number, other_factors, sorted_factors};
ghost use Rattle.qed_linear.specs.View.{lin_of, place};

use crate::calls::of_lin;
use crate::forms::LinForm;
use qed_terms::{Term, TermOp};
use std::alloc::Global;
use std::cmp::Ordering;
use wp_base::NoMemory;

// ---- the factors of an atom

fn is_factor_over(op: &TermOp) -> bool
    ensures { result ≡ is_factor (h.Term op.now) }
{
    match op {
        TermOp::Mul => false,
        TermOp::Add
        | TermOp::Sub
        | TermOp::Neg
        | TermOp::Div
        | TermOp::Mod
        | TermOp::Wrap(_)
        | TermOp::ShiftLeft
        | TermOp::ShiftRight
        | TermOp::BitAnd
        | TermOp::BitOr
        | TermOp::BitXor
        | TermOp::BitNot
        | TermOp::Load
        | TermOp::Count
        | TermOp::Len
        | TermOp::Store
        | TermOp::Alloc(_)
        | TermOp::Grow => true,
    }
}

// Whether the term stands in a product as it is.
#[tactic(auto, using(qed_terms::proofs::Equations::tree_laws))]
fn is_factor(term: &Term) -> bool
    ensures { result ≡ is_factor (head_of (term_tree term.now)) }
{
    match term {
        Term::Num(_) => false,
        Term::Op(op, _) => is_factor_over(op),
        Term::Var(_, _) => true,
        Term::Ite(_, _, _) => true,
        Term::App(_, _) => true,
    }
}

fn are_factors(terms: &[Term]) -> bool
    ensures { result ≡ are_factors (trees_of (map term_tree terms.now)) }
{
    let mut all = true;
    let mut left = terms.len();
    while left > 0 {
        left -= 1;
        all = is_factor(&terms[left]) && all;
    }
    all
}

// Whether it is a product that has neither numbers nor products among its factors.
#[tactic(auto, using(crate::proofs::Gathered::several_terms, crate::proofs::Gathered::few_terms))]
fn is_product(op: &TermOp, kids: &[Term]) -> bool
    ensures { result ≡ is_product (node (h.Term op.now) (trees_of (map term_tree kids.now))) }
{
    match op {
        TermOp::Mul => {
            if kids.len() < 2 {
                return false;
            }
            are_factors(kids)
        }
        TermOp::Add
        | TermOp::Sub
        | TermOp::Neg
        | TermOp::Div
        | TermOp::Mod
        | TermOp::Wrap(_)
        | TermOp::ShiftLeft
        | TermOp::ShiftRight
        | TermOp::BitAnd
        | TermOp::BitOr
        | TermOp::BitXor
        | TermOp::BitNot
        | TermOp::Load
        | TermOp::Count
        | TermOp::Len
        | TermOp::Store
        | TermOp::Alloc(_)
        | TermOp::Grow => false,
    }
}

// ---- factors in order

// Where the factor belongs.
fn place_of(factors: &[Term], factor: &Term) -> usize
    ensures { result ≡ place (term_tree factor.now) (map term_tree factors.now) }
{
    let mut at = 0;
    while at < factors.len() {
        match factor.compare(&factors[at]) {
            Ordering::Less => return at,
            Ordering::Equal => return at,
            Ordering::Greater => at += 1,
        }
    }
    at
}

#[tactic(auto, using(crate::proofs::Gathered::place_within, crate::proofs::Gathered::inserted))]
fn insert_factor(factors: &mut Vec<Term>, factor: Term) -> Result<(), NoMemory>
    ensures { OnOk result (map term_tree factors.new.items ≡ insert_factor (term_tree factor) (map term_tree factors.old.items)) }
{
    let at = place_of(factors.as_slice(), &factor);
    factors.insert(at, factor)?;
    Ok(())
}

fn insert_copy(alloc: Global, factors: &mut Vec<Term>, factor: &Term) -> Result<(), NoMemory>
    ensures { OnOk result (map term_tree factors.new.items ≡ insert_factors (term_tree factor.now ∷ []) (map term_tree factors.old.items)) }
{
    let factor = factor.copy(alloc)?;
    insert_factor(factors, factor)
}

fn insert_copies(alloc: Global, factors: &mut Vec<Term>, terms: &[Term]) -> Result<(), NoMemory>
    ensures { OnOk result (map term_tree factors.new.items ≡ insert_factors (map term_tree terms.now) (map term_tree factors.old.items)) }
{
    let mut left = terms.len();
    while left > 0 {
        left -= 1;
        insert_copy(alloc, factors, &terms[left])?;
    }
    Ok(())
}

#[tactic(auto, using(qed_terms::proofs::Equations::tree_laws, crate::proofs::Gathered::product_factors, crate::proofs::Gathered::other_factor))]
fn insert_atom(alloc: Global, factors: &mut Vec<Term>, atom: &Term) -> Result<(), NoMemory>
    ensures { OnOk result (map term_tree factors.new.items ≡ insert_factors (factors_of (term_tree atom.now)) (map term_tree factors.old.items)) }
{
    match atom {
        Term::Op(op, kids) => {
            if is_product(op, kids.as_slice()) {
                return insert_copies(alloc, factors, kids.as_slice());
            }
            insert_copy(alloc, factors, atom)
        }
        Term::Num(_) => insert_copy(alloc, factors, atom),
        Term::Var(_, _) => insert_copy(alloc, factors, atom),
        Term::Ite(_, _, _) => insert_copy(alloc, factors, atom),
        Term::App(_, _) => insert_copy(alloc, factors, atom),
    }
}

// ---- the factors of forms

// Whether the form is a number times an atom.
#[tactic(auto, using(crate::proofs::Gathered::one_part, crate::proofs::Gathered::not_one_part))]
fn is_single(form: &LinForm) -> bool
    ensures { result ≡ is_single (lin_of form.now) }
{
    if form.parts.len() != 1 {
        return false;
    }
    form.constant == 0
}

/// The number of a form that is a number times an atom, else 1.
#[tactic(auto, using(crate::proofs::Gathered::single_times, crate::proofs::Gathered::other_times, crate::proofs::Gathered::single_length))]
pub fn times_of(form: &LinForm) -> i128
    ensures { result ≡ times_of (lin_of form.now) }
{
    if is_single(form) {
        return form.parts[0].times;
    }
    1
}

#[tactic(auto, using(crate::proofs::Gathered::single_factors, crate::proofs::Gathered::whole_factor, crate::proofs::Gathered::single_length))]
fn insert_form(alloc: Global, factors: &mut Vec<Term>, form: &LinForm) -> Result<(), NoMemory>
    ensures { OnOk result (map term_tree factors.new.items ≡ insert_factors (factor_trees (lin_of form.now)) (map term_tree factors.old.items)) }
{
    if is_single(form) {
        return insert_atom(alloc, factors, &form.parts[0].atom);
    }
    let term = of_lin(alloc, form)?;
    insert_factor(factors, term)
}

// Its factors too, unless it is a number.
fn gather(alloc: Global, factors: &mut Vec<Term>, form: &LinForm) -> Result<(), NoMemory>
    ensures { OnOk result (map term_tree factors.new.items ≡ (if is_number (lin_of form.now) then map term_tree factors.old.items else insert_factors (factor_trees (lin_of form.now)) (map term_tree factors.old.items))) }
{
    if form.parts.is_empty() {
        return Ok(());
    }
    insert_form(alloc, factors, form)
}

/// The factors of the forms that aren't numbers, in order.
pub fn sorted_factors(alloc: Global, forms: &[LinForm]) -> Result<Vec<Term>, NoMemory>
    ensures { IfOk result (λ factors. map term_tree factors.items ≡ sorted_factors (other_factors (map lin_of forms.now))) }
{
    let mut factors = Vec::new(alloc);
    let mut left = forms.len();
    while left > 0 {
        left -= 1;
        gather(alloc, &mut factors, &forms[left])?;
    }
    Ok(factors)
}
