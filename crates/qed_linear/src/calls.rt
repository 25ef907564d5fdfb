// What is asked of forms from outside: sums, multiples, and the form of a term, each where its numbers fit 128 bits.
ghost use Rattle.std.specs.Prelude.{◌≡◌, Some, None, OnSome, IfNone, IfOk, option_map};
ghost use Rattle.qed_terms.specs.View.{term_tree};
ghost use Rattle.qed_linear.specs.Linear.{add, scale, scale_parts, numbers_fit, fitting, own_form, of_lin};
ghost use Rattle.qed_linear.specs.View.{lin_of, parts_of, multiple, multiples, IsForm};

use crate::forms::{LinEnd, LinForm, LinPart, ended};
use crate::sums::{fitting_sum, push_part};
use crate::terms::{into_term, own_form};
use qed_terms::Term;
use std::alloc::Global;
use wp_base::NoMemory;

/// The sum of two forms.
pub fn add(alloc: Global, left: &LinForm, right: &LinForm) -> Result<LinForm, LinEnd>
    ensures { IsForm result (fitting (add (lin_of left.now) (lin_of right.now))) }
{
    ended(fitting_sum(alloc, left, right))
}

/// The form of a term. Below it a term whose own form doesn't fit counts as an atom.
#[tactic(auto, using(qed_terms::proofs::Equations::tree_laws))]
pub fn to_lin(alloc: Global, term: &Term) -> Result<LinForm, LinEnd>
    ensures { IsForm result (own_form (term_tree term.now)) }
{
    ended(own_form(alloc, term))
}

fn copy_parts(alloc: Global, parts: &[LinPart]) -> Result<Vec<LinPart>, NoMemory>
    ensures { IfOk result (λ copies. parts_of copies.items ≡ parts_of parts.now) }
{
    let mut copies = Vec::new(alloc);
    for part in parts {
        push_part(&mut copies, part.atom.copy(alloc)?, part.times)?;
    }
    Ok(copies)
}

/// The term of a form: its parts, then the constant.
pub fn of_lin(alloc: Global, form: &LinForm) -> Result<Term, NoMemory>
    ensures { IfOk result (λ term. term_tree term ≡ of_lin (lin_of form.now)) }
{
    let parts = copy_parts(alloc, form.parts.as_slice())?;
    into_term(
        alloc,
        LinForm {
            parts,
            constant: form.constant,
        },
    )
}

// ---- multiples

// Whether all coefficients fit once they are multiplied.
fn can_scale(parts: &[LinPart], by: i128) -> bool
    ensures { result ≡ numbers_fit (scale_parts by (parts_of parts.now)) }
{
    for part in parts {
        match by.checked_mul(part.times) {
            Some(_) => {}
            None => return false,
        }
    }
    true
}

// The number times another, or the number itself where that doesn't fit.
fn multiple(by: i128, times: i128) -> i128
    ensures { result ≡ multiple by times }
{
    match by.checked_mul(times) {
        Some(product) => product,
        None => times,
    }
}

fn scale_parts(parts: &mut Vec<LinPart>, by: i128)
    ensures { parts_of parts.new.items ≡ multiples by (parts_of parts.old.items) }
{
    let mut at = 0;
    while at < parts.len() {
        parts[at].times = multiple(by, parts[at].times);
        at += 1;
    }
}

/// The form times a number. Where a number of the result doesn't fit, the form stays as it was.
pub fn scale(form: &mut LinForm, by: i128) -> Option<()>
    ensures some { OnSome result (Some (lin_of form.new) ≡ fitting (scale by (lin_of form.old))) }
    ensures none { IfNone result ((None ≡ fitting (scale by (lin_of form.old))) × (form.new ≡ form.old)) }
{
    if by == 0 {
        form.parts.clear();
        form.constant = 0;
        return Some(());
    }
    if !can_scale(form.parts.as_slice(), by) {
        return None;
    }
    match by.checked_mul(form.constant) {
        Some(constant) => {
            scale_parts(&mut form.parts, by);
            form.constant = constant;
            Some(())
        }
        None => None,
    }
}
