// The walk over terms and formulas: kids first, then what the head's pass makes of them, which may have to go again.
ghost use Rattle.std.specs.Prelude.{◌≡◌, true, map, IfOk};
ghost use Rattle.qed_terms.specs.Tree.{trees_of};
ghost use Rattle.qed_terms.specs.Setting.{is_regular};
ghost use Rattle.qed_terms.specs.View.{formula_tree, term_tree, view_setting};
ghost use Rattle.qed_rules.specs.Passes.{pass_call};
ghost use Rattle.qed_rules.specs.Rules.{step};
ghost use Rattle.qed_rules.specs.View.{view_pass};
ghost use Rattle.qed_simplify.specs.Normal.{Normal, Normals, Settles};

use qed_calls::call_base;
use qed_rules::{
    Pass, normal_ite, normal_junction, normal_op, pass_equivalence, pass_implication, pass_not,
    pass_quantifier, pass_relation,
};
use qed_terms::{Formula, Setting, Term};
use std::alloc::Global;
use wp_base::{List, NoMemory, Str};

/// The normal form of a term in a setting.
#[cycle(normalise)]
#[tactic(auto, using(qed_terms::proofs::Equations::tree_laws))]
pub fn normalise_term(alloc: Global, world: &Setting, term: &Term) -> Result<Term, NoMemory>
    requires { is_regular (view_setting world.now) ≡ true }
    ensures { IfOk result (λ normal. Normal (step (view_setting world.now)) (term_tree term.now) (term_tree normal)) }
{
    match term {
        Term::Num(_) => term.copy(alloc),
        Term::Var(_, _) => term.copy(alloc),
        Term::Op(op, kids) => normal_op(
            alloc,
            world.long_bits,
            op.copy(alloc)?,
            normalise_terms(alloc, world, kids)?,
        ),
        Term::Ite(condition, left, right) => {
            let condition = normalise(alloc, world, condition.get())?;
            let left = normalise_term(alloc, world, left.get())?;
            let right = normalise_term(alloc, world, right.get())?;
            normal_ite(alloc, condition, left, right)
        }
        Term::App(name, kids) => {
            let kids = normalise_terms(alloc, world, kids)?;
            settle_call(alloc, world, name, kids)
        }
    }
}

// The normal form of the base case of the function, or the call.
#[cycle(normalise)]
#[tactic(auto, using(qed_terms::proofs::Equations::tree_laws))]
fn settle_call(
    alloc: Global,
    world: &Setting,
    name: &Str,
    kids: List<Term>,
) -> Result<Term, NoMemory>
    requires { is_regular (view_setting world.now) ≡ true }
    ensures { IfOk result (λ normal. Settles (view_setting world.now) (pass_call (view_setting world.now).logic name.now (trees_of (map term_tree kids))) (term_tree normal)) }
{
    match call_base(alloc, &world.logic, name, &kids)? {
        Some(base) => normalise_term(alloc, world, &base),
        None => Ok(Term::App(name.copy(alloc)?, kids)),
    }
}

#[cycle(normalise)]
fn normalise_terms(
    alloc: Global,
    world: &Setting,
    terms: &List<Term>,
) -> Result<List<Term>, NoMemory>
    requires { is_regular (view_setting world.now) ≡ true }
    ensures { IfOk result (λ normals. Normals (step (view_setting world.now)) (trees_of (map term_tree terms.now)) (trees_of (map term_tree normals))) }
{
    let mut normals = List::new(alloc);
    for term in terms.as_slice() {
        normals.push(normalise_term(alloc, world, term)?)?;
    }
    Ok(normals)
}

#[cycle(normalise)]
fn normalise_both(
    alloc: Global,
    world: &Setting,
    left: &Formula,
    right: &Formula,
) -> Result<(Formula, Formula), NoMemory>
    requires { is_regular (view_setting world.now) ≡ true }
    ensures { IfOk result (λ both. Normal (step (view_setting world.now)) (formula_tree left.now) (formula_tree both.0) × Normal (step (view_setting world.now)) (formula_tree right.now) (formula_tree both.1)) }
{
    let left = normalise(alloc, world, left)?;
    let right = normalise(alloc, world, right)?;
    Ok((left, right))
}

// The bounds and the body of a quantifier.
#[cycle(normalise)]
fn normalise_range(
    alloc: Global,
    world: &Setting,
    low: &Term,
    high: &Term,
    body: &Formula,
) -> Result<(Term, Term, Formula), NoMemory>
    requires { is_regular (view_setting world.now) ≡ true }
    ensures { IfOk result (λ range. Normal (step (view_setting world.now)) (term_tree low.now) (term_tree range.0) × Normal (step (view_setting world.now)) (term_tree high.now) (term_tree range.1) × Normal (step (view_setting world.now)) (formula_tree body.now) (formula_tree range.2)) }
{
    let low = normalise_term(alloc, world, low)?;
    let high = normalise_term(alloc, world, high)?;
    let body = normalise(alloc, world, body)?;
    Ok((low, high, body))
}

// What the pass made, or the normal form of what goes again.
#[cycle(normalise)]
fn settle(alloc: Global, world: &Setting, pass: Pass) -> Result<Formula, NoMemory>
    requires { is_regular (view_setting world.now) ≡ true }
    ensures { IfOk result (λ normal. Settles (view_setting world.now) (view_pass pass) (formula_tree normal)) }
{
    match pass {
        Pass::Done(formula) => Ok(formula),
        Pass::Again(formula) => normalise(alloc, world, &formula),
    }
}

/// The normal form of a formula in a setting.
#[cycle(normalise)]
#[tactic(auto, using(qed_terms::proofs::Equations::tree_laws))]
pub fn normalise(alloc: Global, world: &Setting, formula: &Formula) -> Result<Formula, NoMemory>
    requires { is_regular (view_setting world.now) ≡ true }
    ensures { IfOk result (λ normal. Normal (step (view_setting world.now)) (formula_tree formula.now) (formula_tree normal)) }
{
    match formula {
        Formula::True => Ok(Formula::True),
        Formula::False => Ok(Formula::False),
        Formula::Rel(op, terms) => {
            let op = op.copy(alloc)?;
            let terms = normalise_terms(alloc, world, terms)?;
            settle(alloc, world, pass_relation(alloc, op, terms)?)
        }
        Formula::Not(inner) => {
            let inner = normalise(alloc, world, inner.get())?;
            settle(alloc, world, pass_not(alloc, &inner)?)
        }
        Formula::And(operands) => normal_junction(
            alloc,
            true,
            normalise_all(alloc, world, operands)?,
        ),
        Formula::Or(operands) => normal_junction(
            alloc,
            false,
            normalise_all(alloc, world, operands)?,
        ),
        Formula::Imp(from, to) => {
            let (from, to) = normalise_both(alloc, world, from.get(), to.get())?;
            settle(alloc, world, pass_implication(alloc, &from, &to)?)
        }
        Formula::Iff(left, right) => {
            let (left, right) = normalise_both(alloc, world, left.get(), right.get())?;
            settle(alloc, world, pass_equivalence(alloc, &left, &right)?)
        }
        Formula::Forall(name, low, high, body) => {
            let (low, high, body) = normalise_range(
                alloc,
                world,
                low.get(),
                high.get(),
                body.get(),
            )?;
            settle(
                alloc,
                world,
                pass_quantifier(alloc, true, name, low, high, body)?,
            )
        }
        Formula::Exists(name, low, high, body) => {
            let (low, high, body) = normalise_range(
                alloc,
                world,
                low.get(),
                high.get(),
                body.get(),
            )?;
            settle(
                alloc,
                world,
                pass_quantifier(alloc, false, name, low, high, body)?,
            )
        }
    }
}

#[cycle(normalise)]
fn normalise_all(
    alloc: Global,
    world: &Setting,
    formulas: &List<Formula>,
) -> Result<List<Formula>, NoMemory>
    requires { is_regular (view_setting world.now) ≡ true }
    ensures { IfOk result (λ normals. Normals (step (view_setting world.now)) (trees_of (map formula_tree formulas.now)) (trees_of (map formula_tree normals))) }
{
    let mut normals = List::new(alloc);
    for formula in formulas.as_slice() {
        normals.push(normalise(alloc, world, formula)?)?;
    }
    Ok(normals)
}
