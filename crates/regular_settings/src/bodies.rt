// Bodies of functions.
ghost use Rattle.std.specs.Prelude.{◌≡◌, map};
ghost use Rattle.qed_terms.specs.Setting as spec;
ghost use Rattle.qed_terms.specs.Tree.{trees_of};
ghost use Rattle.qed_terms.specs.View.{formula_tree, term_tree};
ghost use Rattle.regular_settings.specs.View.{allowed, params_of};

use crate::params::is_among;
use crate::uses::is_allowed;
use qed_terms::{Formula, LogicFn, Term};

/// What a body may use: its parameters, the functions before, and, where it may go down, its own function.
#[derive(Clone, Copy)]
pub(crate) struct Uses<'a> {
    pub params: &'a [Term],
    pub before: &'a [LogicFn],
    pub own: Option<&'a LogicFn>,
}

#[cycle(bodies)]
#[tactic(auto, using(qed_terms::proofs::Equations::tree_laws))]
pub(crate) fn is_plain(term: &Term, uses: Uses) -> bool
    ensures { result ≡ spec.is_plain (params_of uses.entry) (allowed uses.entry) (term_tree term.now) }
{
    match term {
        Term::Num(_) => true,
        Term::Var(name, sort) => is_among(uses.params, 0, name.bytes(), *sort),
        Term::Op(_, kids) => are_plain(kids.as_slice(), uses),
        Term::Ite(test, left, right) => {
            if !is_plain_formula(test.get(), uses) {
                return false;
            }
            is_plain(left.get(), uses) && is_plain(right.get(), uses)
        }
        Term::App(name, kids) => {
            let kids = kids.as_slice();
            is_allowed(uses.before, uses.own, name.bytes(), kids) && are_plain(kids, uses)
        }
    }
}

#[cycle(bodies)]
#[tactic(auto, using(crate::proofs::Passing::plain_laws))]
fn are_plain(terms: &[Term], uses: Uses) -> bool
    ensures { result ≡ spec.are_plain (params_of uses.entry) (allowed uses.entry) (trees_of (map term_tree terms.now)) }
{
    for at in 0..terms.len() {
        if !is_plain(&terms[at], uses) {
            return false;
        }
    }
    true
}

#[cycle(bodies)]
#[tactic(auto, using(qed_terms::proofs::Equations::tree_laws))]
fn is_plain_formula(formula: &Formula, uses: Uses) -> bool
    ensures { result ≡ spec.is_plain (params_of uses.entry) (allowed uses.entry) (formula_tree formula.now) }
{
    match formula {
        Formula::True => true,
        Formula::False => true,
        Formula::Rel(_, terms) => are_plain(terms.as_slice(), uses),
        Formula::Not(part) => is_plain_formula(part.get(), uses),
        Formula::And(parts) => are_plain_formulas(parts.as_slice(), uses),
        Formula::Or(parts) => are_plain_formulas(parts.as_slice(), uses),
        Formula::Imp(from, to) => {
            is_plain_formula(from.get(), uses) && is_plain_formula(to.get(), uses)
        }
        Formula::Iff(left, right) => {
            is_plain_formula(left.get(), uses) && is_plain_formula(right.get(), uses)
        }
        Formula::Forall(_, _, _, _) => false,
        Formula::Exists(_, _, _, _) => false,
    }
}

#[cycle(bodies)]
#[tactic(auto, using(crate::proofs::Passing::plain_laws))]
fn are_plain_formulas(formulas: &[Formula], uses: Uses) -> bool
    ensures { result ≡ spec.are_plain (params_of uses.entry) (allowed uses.entry) (trees_of (map formula_tree formulas.now)) }
{
    for at in 0..formulas.len() {
        if !is_plain_formula(&formulas[at], uses) {
            return false;
        }
    }
    true
}
