// A term put in the free places of a name of an integer.
ghost use Rattle.std.specs.Prelude.{◌≡◌, map, IfOk};
ghost use Rattle.qed_terms.specs.Tree.{node, three};
ghost use Rattle.qed_terms.specs.View.{formula_tree, term_tree};
ghost use Rattle.qed_substitution.specs.Substitution.{replace, quantifier};

use crate::build::quantify;
use crate::free::is_name;
use qed_terms::{Formula, Sort, Term};
use std::alloc::Global;
use wp_base::{Boxed, List, NoMemory, Str, box_both};

#[cycle(replace)]
#[tactic(auto, using(qed_terms::proofs::Equations::tree_laws))]
fn replace_in_term(alloc: Global, term: &Term, name: &Str, by: &Term) -> Result<Term, NoMemory>
    ensures { IfOk result (λ new. term_tree new ≡ replace name.now (term_tree by.now) (term_tree term.now)) }
{
    match term {
        Term::Num(_) => term.copy(alloc),
        Term::Var(other, sort) => match sort {
            Sort::Int => {
                if is_name(name, other) {
                    by.copy(alloc)
                } else {
                    term.copy(alloc)
                }
            }
            Sort::Memory => term.copy(alloc),
            Sort::Table => term.copy(alloc),
        },
        Term::Op(op, kids) => {
            let op = op.copy(alloc)?;
            Ok(Term::Op(op, replace_in_terms(alloc, kids, name, by)?))
        }
        Term::Ite(condition, left, right) => {
            let condition = replace_in_formula(alloc, condition.get(), name, by)?;
            let left = replace_in_term(alloc, left.get(), name, by)?;
            let right = replace_in_term(alloc, right.get(), name, by)?;
            Term::ite(alloc, condition, left, right)
        }
        Term::App(function, kids) => {
            let function = function.copy(alloc)?;
            Ok(Term::App(function, replace_in_terms(alloc, kids, name, by)?))
        }
    }
}

#[cycle(replace)]
fn replace_in_terms(
    alloc: Global,
    terms: &List<Term>,
    name: &Str,
    by: &Term,
) -> Result<List<Term>, NoMemory>
    ensures { IfOk result (λ new. map term_tree new ≡ map (λ t. replace name.now (term_tree by.now) (term_tree t)) terms.now) }
{
    let mut new = List::new(alloc);
    for term in terms.as_slice() {
        new.push(replace_in_term(alloc, term, name, by)?)?;
    }
    Ok(new)
}

/// The formula with the term in the free places of the name.
#[cycle(replace)]
#[tactic(auto, using(qed_terms::proofs::Equations::tree_laws))]
pub fn replace_in_formula(
    alloc: Global,
    formula: &Formula,
    name: &Str,
    by: &Term,
) -> Result<Formula, NoMemory>
    ensures { IfOk result (λ new. formula_tree new ≡ replace name.now (term_tree by.now) (formula_tree formula.now)) }
{
    match formula {
        Formula::True => Ok(Formula::True),
        Formula::False => Ok(Formula::False),
        Formula::Rel(op, terms) => {
            let op = op.copy(alloc)?;
            Ok(Formula::Rel(op, replace_in_terms(alloc, terms, name, by)?))
        }
        Formula::Not(part) => {
            let part = replace_in_formula(alloc, part.get(), name, by)?;
            Formula::negation(alloc, part)
        }
        Formula::And(parts) => Ok(Formula::And(replace_in_formulas(alloc, parts, name, by)?)),
        Formula::Or(parts) => Ok(Formula::Or(replace_in_formulas(alloc, parts, name, by)?)),
        Formula::Imp(from, to) => {
            let (from, to) = replace_in_both(alloc, from.get(), to.get(), name, by)?;
            Ok(Formula::Imp(from, to))
        }
        Formula::Iff(left, right) => {
            let (left, right) = replace_in_both(alloc, left.get(), right.get(), name, by)?;
            Ok(Formula::Iff(left, right))
        }
        Formula::Forall(other, low, high, body) => replace_in_quantifier(
            alloc,
            true,
            other,
            low.get(),
            high.get(),
            body.get(),
            name,
            by,
        ),
        Formula::Exists(other, low, high, body) => replace_in_quantifier(
            alloc,
            false,
            other,
            low.get(),
            high.get(),
            body.get(),
            name,
            by,
        ),
    }
}

#[cycle(replace)]
fn replace_in_formulas(
    alloc: Global,
    formulas: &List<Formula>,
    name: &Str,
    by: &Term,
) -> Result<List<Formula>, NoMemory>
    ensures { IfOk result (λ new. map formula_tree new ≡ map (λ f. replace name.now (term_tree by.now) (formula_tree f)) formulas.now) }
{
    let mut new = List::new(alloc);
    for formula in formulas.as_slice() {
        new.push(replace_in_formula(alloc, formula, name, by)?)?;
    }
    Ok(new)
}

#[cycle(replace)]
fn replace_in_both(
    alloc: Global,
    left: &Formula,
    right: &Formula,
    name: &Str,
    by: &Term,
) -> Result<(Boxed<Formula>, Boxed<Formula>), NoMemory>
    ensures { IfOk result (λ both. (formula_tree both.0 ≡ replace name.now (term_tree by.now) (formula_tree left.now)) × (formula_tree both.1 ≡ replace name.now (term_tree by.now) (formula_tree right.now))) }
{
    let left = replace_in_formula(alloc, left, name, by)?;
    let right = replace_in_formula(alloc, right, name, by)?;
    box_both(alloc, left, right)
}

// A quantifier over the other name, whose body has no free place of a name that it binds.
#[cycle(replace)]
fn replace_in_quantifier(
    alloc: Global,
    all: bool,
    other: &Str,
    low: &Term,
    high: &Term,
    body: &Formula,
    name: &Str,
    by: &Term,
) -> Result<Formula, NoMemory>
    ensures { IfOk result (λ new. formula_tree new ≡ replace name.now (term_tree by.now) (node (quantifier all other.now) (three (term_tree low.now) (term_tree high.now) (formula_tree body.now)))) }
{
    let low = replace_in_term(alloc, low, name, by)?;
    let high = replace_in_term(alloc, high, name, by)?;
    let body = if is_name(name, other) {
        body.copy(alloc)?
    } else {
        replace_in_formula(alloc, body, name, by)?
    };
    quantify(alloc, all, other, low, high, body)
}
