// The term or formula of a head over kids.
ghost use Rattle.std.specs.Prelude.{◌≡◌, true, map, if◌then◌else◌, IfOk};
ghost use Rattle.qed_terms.specs.Store.{is_well_formed, over};
ghost use Rattle.qed_terms.specs.Tree.{node, stop};
ghost use Rattle.qed_terms.specs.declared.head.Head.TheVariants as head;
ghost use Rattle.qed_substitution.specs.Substitution.{quantifier};
ghost use Rattle.qed_ids.specs.Made.{are_formulas, are_terms, made_tree};

use crate::made::{Made, as_formula, as_term, formulas_of, one_of, terms_of, three_of, two_of};
use qed_substitution::quantify;
use qed_terms::{FormOp, Formula, Head, Sort, Term, TermOp};
use std::alloc::Global;
use wp_base::{NoMemory, Str, box_both};

#[tactic(auto, using(qed_terms::proofs::Equations::tree_laws))]
fn operator(alloc: Global, op: &TermOp, kids: Vec<Made>) -> Result<Made, NoMemory>
    requires { are_terms (map made_tree kids.items) ≡ true }
    ensures { IfOk result (λ made. made_tree made ≡ over (head.Term op.now) (map made_tree kids.items)) }
{
    let kids = terms_of(alloc, kids)?;
    let op = op.copy(alloc)?;
    Ok(Made::Term(Term::Op(op, kids)))
}

#[tactic(auto, using(qed_terms::proofs::Equations::tree_laws))]
fn call(alloc: Global, name: &Str, kids: Vec<Made>) -> Result<Made, NoMemory>
    requires { are_terms (map made_tree kids.items) ≡ true }
    ensures { IfOk result (λ made. made_tree made ≡ over (head.App name.now) (map made_tree kids.items)) }
{
    let kids = terms_of(alloc, kids)?;
    let name = name.copy(alloc)?;
    Ok(Made::Term(Term::App(name, kids)))
}

#[tactic(auto, using(qed_terms::proofs::Equations::tree_laws))]
fn relation(alloc: Global, op: &FormOp, kids: Vec<Made>) -> Result<Made, NoMemory>
    requires { are_terms (map made_tree kids.items) ≡ true }
    ensures { IfOk result (λ made. made_tree made ≡ over (head.Form op.now) (map made_tree kids.items)) }
{
    let kids = terms_of(alloc, kids)?;
    let op = op.copy(alloc)?;
    Ok(Made::Formula(Formula::Rel(op, kids)))
}

#[tactic(auto, using(crate::proofs::Sorts::part_laws))]
fn choice(alloc: Global, kids: Vec<Made>) -> Result<Made, NoMemory>
    requires { is_well_formed (over head.Ite (map made_tree kids.items)) ≡ true }
    ensures { IfOk result (λ made. made_tree made ≡ over head.Ite (map made_tree kids.items)) }
{
    let (condition, left, right) = three_of(kids);
    let made = Term::ite(alloc, as_formula(condition), as_term(left), as_term(right))?;
    Ok(Made::Term(made))
}

#[tactic(auto, using(crate::proofs::Sorts::part_laws))]
fn negation(alloc: Global, kids: Vec<Made>) -> Result<Made, NoMemory>
    requires { is_well_formed (over head.Not (map made_tree kids.items)) ≡ true }
    ensures { IfOk result (λ made. made_tree made ≡ over head.Not (map made_tree kids.items)) }
{
    let made = Formula::negation(alloc, as_formula(one_of(kids)))?;
    Ok(Made::Formula(made))
}

#[tactic(auto, using(crate::proofs::Sorts::part_laws))]
fn implication(alloc: Global, kids: Vec<Made>) -> Result<Made, NoMemory>
    requires { is_well_formed (over head.Imp (map made_tree kids.items)) ≡ true }
    ensures { IfOk result (λ made. made_tree made ≡ over head.Imp (map made_tree kids.items)) }
{
    let (from, to) = two_of(kids);
    let made = Formula::implication(alloc, as_formula(from), as_formula(to))?;
    Ok(Made::Formula(made))
}

#[tactic(auto, using(qed_terms::proofs::Equations::tree_laws, crate::proofs::Sorts::part_laws))]
fn equivalence(alloc: Global, kids: Vec<Made>) -> Result<Made, NoMemory>
    requires { is_well_formed (over head.Iff (map made_tree kids.items)) ≡ true }
    ensures { IfOk result (λ made. made_tree made ≡ over head.Iff (map made_tree kids.items)) }
{
    let (left, right) = two_of(kids);
    let (left, right) = box_both(alloc, as_formula(left), as_formula(right))?;
    Ok(Made::Formula(Formula::Iff(left, right)))
}

// `forall`, or else `exists`.
#[tactic(auto, using(crate::proofs::Sorts::part_laws))]
fn quantified(alloc: Global, all: bool, name: &Str, kids: Vec<Made>) -> Result<Made, NoMemory>
    requires { is_well_formed (over (quantifier all name.now) (map made_tree kids.items)) ≡ true }
    ensures { IfOk result (λ made. made_tree made ≡ over (quantifier all name.now) (map made_tree kids.items)) }
{
    let (low, high, body) = three_of(kids);
    let made = quantify(
        alloc,
        all,
        name,
        as_term(low),
        as_term(high),
        as_formula(body),
    )?;
    Ok(Made::Formula(made))
}

// `and`, or else `or`.
#[tactic(auto, using(qed_terms::proofs::Equations::tree_laws))]
fn junction(alloc: Global, all: bool, kids: Vec<Made>) -> Result<Made, NoMemory>
    requires { are_formulas (map made_tree kids.items) ≡ true }
    ensures { IfOk result (λ made. made_tree made ≡ over (if all then head.And else head.Or) (map made_tree kids.items)) }
{
    let parts = formulas_of(alloc, kids)?;
    if all {
        Ok(Made::Formula(Formula::And(parts)))
    } else {
        Ok(Made::Formula(Formula::Or(parts)))
    }
}

// A name.
#[tactic(auto, using(qed_terms::proofs::Equations::tree_laws))]
fn name(alloc: Global, name: &Str, sort: Sort) -> Result<Made, NoMemory>
    ensures { IfOk result (λ made. made_tree made ≡ node (head.Var name.now sort) stop) }
{
    Ok(Made::Term(Term::Var(name.copy(alloc)?, sort)))
}

/// The term or formula of a head over these kids, which fit it.
#[tactic(auto, using(qed_terms::proofs::Equations::tree_laws, crate::proofs::Sorts::kid_laws, crate::proofs::Sorts::alone_laws))]
pub fn build(alloc: Global, head: &Head, kids: Vec<Made>) -> Result<Made, NoMemory>
    requires { is_well_formed (over head.now (map made_tree kids.items)) ≡ true }
    ensures { IfOk result (λ made. made_tree made ≡ over head.now (map made_tree kids.items)) }
{
    match head {
        Head::Num(value) => Ok(Made::Term(Term::Num(*value))),
        Head::Var(text, sort) => name(alloc, text, *sort),
        Head::Term(op) => operator(alloc, op, kids),
        Head::Ite => choice(alloc, kids),
        Head::App(name) => call(alloc, name, kids),
        Head::Form(op) => relation(alloc, op, kids),
        Head::True => Ok(Made::Formula(Formula::True)),
        Head::False => Ok(Made::Formula(Formula::False)),
        Head::Not => negation(alloc, kids),
        Head::And => junction(alloc, true, kids),
        Head::Or => junction(alloc, false, kids),
        Head::Imp => implication(alloc, kids),
        Head::Iff => equivalence(alloc, kids),
        Head::Forall(name) => quantified(alloc, true, name, kids),
        Head::Exists(name) => quantified(alloc, false, name, kids),
    }
}
