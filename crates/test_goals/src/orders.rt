// Orders of terms and formulas, told for each with all that are above it.

use crate::formulas::formulas_in_order;
use crate::terms::terms_in_order;
use qed_terms::{Formula, Term};
use std::alloc::Global;
use std::cmp::Ordering;
use test_lines::Page;
use wp_base::NoMemory;

fn tell_whether(page: &mut Page, holds: bool) {
    page.put(if holds { " yes" } else { " no" });
}

fn is_term_below(low: &Term, above: &[Term]) -> bool {
    above.iter().all(|high| low.compare(high) == Ordering::Less && !high.is_same(low))
}

fn is_term_copied(alloc: Global, term: &Term) -> Result<bool, NoMemory> {
    let copy = term.copy(alloc)?;
    Ok(copy.is_same(term))
}

fn tell_each_term(alloc: Global, page: &mut Page, all: &[Term]) -> Result<(), NoMemory> {
    let mut rest = all;
    for _ in 0..all.len() {
        let Some((first, above)) = rest.split_first() else {
            break;
        };
        page.put("term, above it ");
        page.put_number(above.len());
        tell_whether(page, is_term_below(first, above));
        tell_whether(page, is_term_copied(alloc, first)?);
        page.put("\n");
        rest = above;
    }
    Ok(())
}

/// For each term whether it is below all that come after it, and the same as its copy.
pub fn tell_terms(alloc: Global, page: &mut Page) -> Result<(), NoMemory> {
    let all = terms_in_order(alloc)?;
    tell_each_term(alloc, page, all.as_slice())
}

fn is_formula_below(low: &Formula, above: &[Formula]) -> bool {
    above.iter().all(|high| low.compare(high) == Ordering::Less && !high.is_same(low))
}

fn is_formula_copied(alloc: Global, formula: &Formula) -> Result<bool, NoMemory> {
    let copy = formula.copy(alloc)?;
    Ok(copy.is_same(formula))
}

fn tell_each_formula(alloc: Global, page: &mut Page, all: &[Formula]) -> Result<(), NoMemory> {
    let mut rest = all;
    for _ in 0..all.len() {
        let Some((first, above)) = rest.split_first() else {
            break;
        };
        page.put("formula, above it ");
        page.put_number(above.len());
        tell_whether(page, is_formula_below(first, above));
        tell_whether(page, is_formula_copied(alloc, first)?);
        page.put("\n");
        rest = above;
    }
    Ok(())
}

/// For each formula whether it is below all that come after it, and the same as its copy.
pub fn tell_formulas(alloc: Global, page: &mut Page) -> Result<(), NoMemory> {
    let all = formulas_in_order(alloc)?;
    tell_each_formula(alloc, page, all.as_slice())
}
