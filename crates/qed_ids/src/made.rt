// Terms and formulas side by side, as the kids of a node are, and taken apart again.
ghost use Rattle.std.specs.Prelude.{◌≡◌, true, false, [], ◌∷◌, length, map, IfOk};
ghost use Rattle.qed_terms.specs.View.{formula_tree, term_tree};
ghost use Rattle.qed_ids.specs.Made.{are_formulas, are_terms, is_formula, made_tree};

use qed_terms::{Formula, Term};
use std::alloc::Global;
use wp_base::{List, NoMemory};

/// What stands at a node.
#[derive(Drop)]
pub enum Made {
    Term(Term),
    Formula(Formula),
}

#[tactic(auto, using(crate::proofs::Sorts::formula_is))]
pub fn as_term(made: Made) -> Term
    requires { is_formula (made_tree made) ≡ false }
    ensures { term_tree result ≡ made_tree made }
{
    match made {
        Made::Term(term) => term,
        Made::Formula(_) => unreachable!(),
    }
}

#[tactic(auto, using(crate::proofs::Sorts::term_is))]
pub fn as_formula(made: Made) -> Formula
    requires { is_formula (made_tree made) ≡ true }
    ensures { formula_tree result ≡ made_tree made }
{
    match made {
        Made::Term(_) => unreachable!(),
        Made::Formula(formula) => formula,
    }
}

pub fn terms_of(alloc: Global, kids: Vec<Made>) -> Result<List<Term>, NoMemory>
    requires { are_terms (map made_tree kids.items) ≡ true }
    ensures { IfOk result (λ terms. map term_tree terms ≡ map made_tree kids.items) }
{
    let mut terms = List::new(alloc);
    for kid in kids {
        terms.push(as_term(kid))?;
    }
    Ok(terms)
}

pub fn formulas_of(alloc: Global, kids: Vec<Made>) -> Result<List<Formula>, NoMemory>
    requires { are_formulas (map made_tree kids.items) ≡ true }
    ensures { IfOk result (λ formulas. map formula_tree formulas ≡ map made_tree kids.items) }
{
    let mut formulas = List::new(alloc);
    for kid in kids {
        formulas.push(as_formula(kid))?;
    }
    Ok(formulas)
}

pub fn one_of<T: Drop>(mut items: Vec<T>) -> T
    requires { length items.items ≡ 1 }
    ensures { items.items ≡ result ∷ [] }
{
    match items.pop() {
        Some(first) => first,
        None => unreachable!(),
    }
}

pub fn two_of<T: Drop>(mut items: Vec<T>) -> (T, T)
    requires { length items.items ≡ 2 }
    ensures { items.items ≡ result.0 ∷ result.1 ∷ [] }
{
    match items.pop() {
        Some(second) => (one_of(items), second),
        None => unreachable!(),
    }
}

pub fn three_of<T: Drop>(mut items: Vec<T>) -> (T, T, T)
    requires { length items.items ≡ 3 }
    ensures { items.items ≡ result.0 ∷ result.1 ∷ result.2 ∷ [] }
{
    match items.pop() {
        Some(third) => {
            let (first, second) = two_of(items);
            (first, second, third)
        }
        None => unreachable!(),
    }
}
