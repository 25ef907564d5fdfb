// The form of a term, and the term of a form.
ghost use Rattle.std.specs.Prelude.{◌≡◌, map, option_map, IfOk};
ghost use Rattle.qed_terms.specs.View.{term_tree};
ghost use Rattle.qed_terms.specs.declared.head.Head.TheVariants as h;
ghost use Rattle.qed_terms.specs.declared.head.TermOp.TheVariants as op;
ghost use Rattle.qed_linear.specs.Linear.{part_tree, sum_tree, of_lin, op_form, to_lin, is_linear, own_form};
ghost use Rattle.qed_linear.specs.View.{part_of, parts_of, lin_of};

use crate::forms::{LinForm, LinPart, atom, number};
use crate::products::product_form;
use crate::sums::{add_all, negate, subtract};
use qed_terms::{Term, TermOp};
use std::alloc::Global;
use wp_base::{List, NoMemory};

// ---- the term of a form

#[tactic(auto, using(qed_terms::proofs::Equations::tree_laws))]
fn term_of_part(alloc: Global, part: LinPart) -> Result<Term, NoMemory>
    ensures { IfOk result (λ term. term_tree term ≡ part_tree (part_of part)) }
{
    if part.times == 1 {
        return Ok(part.atom);
    }
    Term::over(alloc, TermOp::Mul, Term::number(part.times), part.atom)
}

fn terms_of_parts(alloc: Global, parts: Vec<LinPart>) -> Result<Vec<Term>, NoMemory>
    ensures { IfOk result (λ terms. map term_tree terms.items ≡ map part_tree (parts_of parts.items)) }
{
    let mut terms = Vec::new(alloc);
    for part in parts {
        terms.push(term_of_part(alloc, part)?)?;
    }
    Ok(terms)
}

#[tactic(auto, using(qed_terms::proofs::Equations::tree_laws))]
fn sum_of(mut terms: Vec<Term>) -> Term
    ensures { term_tree result ≡ sum_tree (map term_tree terms.items) }
{
    if terms.len() >= 2 {
        return Term::Op(TermOp::Add, List::from_vec(terms));
    }
    match terms.pop() {
        Some(term) => term,
        None => Term::number(0),
    }
}

/// The term of a form: its parts, then the constant.
pub fn into_term(alloc: Global, form: LinForm) -> Result<Term, NoMemory>
    ensures { IfOk result (λ term. term_tree term ≡ of_lin (lin_of form)) }
{
    let mut terms = terms_of_parts(alloc, form.parts)?;
    if form.constant != 0 {
        terms.push(Term::number(form.constant))?;
    }
    Ok(sum_of(terms))
}

// ---- the form of an operator over terms of these forms

fn sub_form(alloc: Global, forms: &[LinForm]) -> Result<Option<LinForm>, NoMemory>
    ensures { IfOk result (λ form. option_map lin_of form ≡ op_form op.Sub (map lin_of forms.now)) }
{
    match forms {
        [left, right] => subtract(alloc, left, right),
        _ => Ok(None),
    }
}

fn neg_form(alloc: Global, forms: &[LinForm]) -> Result<Option<LinForm>, NoMemory>
    ensures { IfOk result (λ form. option_map lin_of form ≡ op_form op.Neg (map lin_of forms.now)) }
{
    match forms {
        [form] => negate(alloc, form),
        _ => Ok(None),
    }
}

// ---- the form of a term

/// The form that an operator makes of its kids, where there is one.
#[cycle(form_of)]
pub fn op_form(alloc: Global, op: &TermOp, kids: &List<Term>) -> Result<Option<LinForm>, NoMemory>
    ensures { IfOk result (λ form. option_map lin_of form ≡ op_form op.now (map (λ t. to_lin (term_tree t)) kids.now)) }
{
    match op {
        TermOp::Add => {
            let forms = forms_of(alloc, kids)?;
            add_all(alloc, forms.as_slice())
        }
        TermOp::Sub => {
            let forms = forms_of(alloc, kids)?;
            sub_form(alloc, forms.as_slice())
        }
        TermOp::Mul => {
            let forms = forms_of(alloc, kids)?;
            product_form(alloc, forms.as_slice())
        }
        TermOp::Neg => {
            let forms = forms_of(alloc, kids)?;
            neg_form(alloc, forms.as_slice())
        }
        TermOp::Div
        | TermOp::Mod
        | TermOp::Wrap(_)
        | TermOp::ShiftLeft
        | TermOp::ShiftRight
        | TermOp::BitAnd
        | TermOp::BitOr
        | TermOp::BitXor
        | TermOp::BitNot
        | TermOp::Load
        | TermOp::Count
        | TermOp::Len
        | TermOp::Store
        | TermOp::Alloc(_)
        | TermOp::Grow => Ok(None),
    }
}

/// The form of a term; a term that has none of its own is an atom.
#[cycle(form_of)]
#[tactic(auto, using(qed_terms::proofs::Equations::tree_laws))]
pub fn form_of(alloc: Global, term: &Term) -> Result<LinForm, NoMemory>
    ensures { IfOk result (λ form. lin_of form ≡ to_lin (term_tree term.now)) }
{
    match term {
        Term::Num(value) => Ok(number(alloc, *value)),
        Term::Op(op, kids) => match op_form(alloc, op, kids)? {
            Some(form) => Ok(form),
            None => atom(alloc, term.copy(alloc)?),
        },
        Term::Var(_, _) => atom(alloc, term.copy(alloc)?),
        Term::Ite(_, _, _) => atom(alloc, term.copy(alloc)?),
        Term::App(_, _) => atom(alloc, term.copy(alloc)?),
    }
}

#[cycle(form_of)]
fn forms_of(alloc: Global, terms: &List<Term>) -> Result<Vec<LinForm>, NoMemory>
    ensures { IfOk result (λ forms. map lin_of forms.items ≡ map (λ t. to_lin (term_tree t)) terms.now) }
{
    let mut forms = Vec::new(alloc);
    for term in terms.as_slice() {
        forms.push(form_of(alloc, term)?)?;
    }
    Ok(forms)
}

// ---- the form of a term that isn't an atom for want of room

fn is_linear(op: &TermOp) -> bool
    ensures { result ≡ is_linear (h.Term op.now) }
{
    match op {
        TermOp::Add | TermOp::Sub | TermOp::Mul | TermOp::Neg => true,
        TermOp::Div
        | TermOp::Mod
        | TermOp::Wrap(_)
        | TermOp::ShiftLeft
        | TermOp::ShiftRight
        | TermOp::BitAnd
        | TermOp::BitOr
        | TermOp::BitXor
        | TermOp::BitNot
        | TermOp::Load
        | TermOp::Count
        | TermOp::Len
        | TermOp::Store
        | TermOp::Alloc(_)
        | TermOp::Grow => false,
    }
}

/// The form of a term, where it fits.
#[tactic(auto, using(qed_terms::proofs::Equations::tree_laws, crate::proofs::OwnForms::own_laws))]
pub fn own_form(alloc: Global, term: &Term) -> Result<Option<LinForm>, NoMemory>
    ensures { IfOk result (λ form. option_map lin_of form ≡ own_form (term_tree term.now)) }
{
    match term {
        Term::Op(op, kids) => {
            if is_linear(op) {
                return op_form(alloc, op, kids);
            }
            Ok(Some(form_of(alloc, term)?))
        }
        Term::Num(value) => Ok(Some(number(alloc, *value))),
        Term::Var(_, _) => Ok(Some(form_of(alloc, term)?)),
        Term::Ite(_, _, _) => Ok(Some(form_of(alloc, term)?)),
        Term::App(_, _) => Ok(Some(form_of(alloc, term)?)),
    }
}
