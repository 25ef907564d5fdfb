// What the set in force asks of a write (ACSL 2.3.2, 2.4.2).
ghost use Rattle.std.specs.Prelude.{◌≡◌, ◌++◌, [], ◌∷◌, ℕ, List, map, true, IfOk, OnOk};
ghost use Rattle.acsl_trees.specs.Tree.{view_trees};
ghost use Rattle.c_runs.specs.Program.{Facts};
ghost use Rattle.plain_runs.specs.Fitting.{Shape};
ghost use Rattle.program_steps.specs.Leaves.{fill};
ghost use Rattle.program_steps.specs.Temporaries.{Temporaries};
ghost use Rattle.program_steps.specs.Terms as terms;
ghost use Rattle.program_steps.specs.Terms.{assumed_tree, entry_reading};
ghost use Rattle.program_steps.specs.Words as spec;
ghost use Rattle.program_trees.specs.View.{view_behavior, view_contract};
ghost use Rattle.qed_terms.specs.Tree.{false_tree};
ghost use Rattle.qed_terms.specs.View.{formula_tree};
ghost use Rattle.step_walks.specs.View.{view_state};
ghost use Rattle.step_walks.specs.Walks.{states};
ghost use Rattle.walk_frames.specs.View.{facts_in, shape_in, view_point};
ghost use Rattle.walk_frames.specs.Words.{unless};
ghost use Rattle.wp_base.specs.declared.kinds.Kind.{Kind};

use crate::claims::assumed_at;
use crate::frames::{Force, Frame, Point, Texts, next_level};
use crate::readings::all_of;
use crate::regions::{has_variable, lacks};
use acsl_trees::Tree;
use program_trees::Behavior;
use qed_terms::Formula;
use std::alloc::Global;
use step_walks::State;
use typed_prog::Variable;
use wp_base::{List, NoMemory};

// Several as one, if there are any.
#[tactic(auto, using(crate::proofs::Given::none_as_one, crate::proofs::Given::some_as_one))]
fn as_one(alloc: Global, formulas: List<Formula>) -> Result<List<Formula>, NoMemory>
    ensures { IfOk result (λ made. map formula_tree made ≡ spec.as_one (map formula_tree formulas)) }
{
    let mut made = List::new(alloc);
    if formulas.len() > 0 {
        made.push(all_of(formulas))?;
    }
    Ok(made)
}

#[tactic(auto, using(qed_terms::proofs::Equations::tree_laws))]
fn refusal(alloc: Global) -> Result<List<Formula>, NoMemory>
    ensures { IfOk result (λ made. map formula_tree made ≡ false_tree ∷ []) }
{
    let mut made = List::new(alloc);
    made.push(Formula::False)?;
    Ok(made)
}

/// Several as one, if there are any; `false` alone where the clause outside of behaviors refuses.
pub fn as_one_unless(
    alloc: Global,
    refused: bool,
    formulas: List<Formula>,
) -> Result<List<Formula>, NoMemory>
    ensures { IfOk result (λ made. map formula_tree made ≡ spec.as_one_unless refused (map formula_tree formulas)) }
{
    if refused {
        refusal(alloc)
    } else {
        as_one(alloc, formulas)
    }
}

/// A claim where a behavior's assumptions held at the function's entry, which is the state of this level; outside of behaviors nothing is assumed.
pub fn claim_under<'a, T: Texts>(
    alloc: Global,
    frame: Frame<'a>,
    texts: &T,
    level: usize,
    is_plain: bool,
    behavior: &Behavior,
    claim: Formula,
    state: &State,
) -> Result<Formula, NoMemory>
    ensures { (k : ℕ → Kind) → IfOk result (λ made. formula_tree made ≡ spec.under is_plain (fill (states (view_state state.now)) (assumed_tree (facts_in frame.entry) (shape_in frame.entry k) (T.text texts.now) (entry_reading (facts_in frame.entry) (shape_in frame.entry k) (T.text texts.now) level) (view_behavior behavior.now).assumes)) (formula_tree claim)) }
{
    if is_plain {
        return Ok(claim);
    }
    let assumed = assumed_at(
        alloc,
        frame,
        texts,
        level,
        behavior.assumes.as_slice(),
        state,
    )?;
    Formula::implication(alloc, assumed, claim)
}

// A clause that doesn't name the variable, with those before.
#[tactic(auto, using(crate::proofs::Given::not_missing))]
fn missing_in<'a, T: Texts>(
    alloc: Global,
    frame: Frame<'a>,
    texts: &T,
    level: usize,
    is_plain: bool,
    behavior: &Behavior,
    variable: Variable,
    state: &State,
    made: &mut List<Formula>,
) -> Result<(), NoMemory>
    ensures { (k : ℕ → Kind) → OnOk result (map formula_tree made.new ≡ map formula_tree made.old ++ map (fill (states (view_state state.now))) (spec.missing_in (facts_in frame.entry) (shape_in frame.entry k) (T.text texts.now) level is_plain (view_behavior behavior.now) variable)) }
{
    if !lacks(&behavior.assigns, variable) {
        return Ok(());
    }
    let formula = claim_under(
        alloc,
        frame,
        texts,
        level,
        is_plain,
        behavior,
        Formula::False,
        state,
    )?;
    made.push(formula)?;
    Ok(())
}

// Those of several behaviors.
fn put_missing<'a, T: Texts>(
    alloc: Global,
    frame: Frame<'a>,
    texts: &T,
    level: usize,
    behaviors: &[Behavior],
    variable: Variable,
    state: &State,
    made: &mut List<Formula>,
) -> Result<(), NoMemory>
    ensures { (k : ℕ → Kind) → OnOk result (map formula_tree made.new ≡ map formula_tree made.old ++ map (fill (states (view_state state.now))) (spec.missing_all (facts_in frame.entry) (shape_in frame.entry k) (T.text texts.now) level (map view_behavior behaviors.now) variable)) }
{
    for behavior in behaviors {
        missing_in(
            alloc, frame, texts, level, false, behavior, variable, state, made,
        )?;
    }
    Ok(())
}

// The clauses of a function that don't name the variable.
fn clauses_without<'a, T: Texts>(
    alloc: Global,
    frame: Frame<'a>,
    texts: &T,
    level: usize,
    variable: Variable,
    state: &State,
) -> Result<List<Formula>, NoMemory>
    ensures { (k : ℕ → Kind) → IfOk result (λ made. map formula_tree made ≡ map (fill (states (view_state state.now))) (spec.missing_in (facts_in frame.entry) (shape_in frame.entry k) (T.text texts.now) level true (view_contract frame.entry.contract.now).plain variable ++ spec.missing_all (facts_in frame.entry) (shape_in frame.entry k) (T.text texts.now) level (view_contract frame.entry.contract.now).behaviors variable)) }
{
    let contract = frame.contract;
    let mut made = List::new(alloc);
    missing_in(
        alloc,
        frame,
        texts,
        level,
        true,
        &contract.plain,
        variable,
        state,
        &mut made,
    )?;
    put_missing(
        alloc,
        frame,
        texts,
        level,
        contract.behaviors.as_slice(),
        variable,
        state,
        &mut made,
    )?;
    Ok(made)
}

// The clauses of a function that don't name a variable of the file.
#[tactic(auto, using(crate::proofs::Missing::missing_joined))]
fn missing<'a, T: Texts>(
    alloc: Global,
    frame: Frame<'a>,
    texts: &T,
    level: usize,
    variable: Variable,
    state: &State,
) -> Result<List<Formula>, NoMemory>
    ensures { (k : ℕ → Kind) → IfOk result (λ made. map formula_tree made ≡ map (fill (states (view_state state.now))) (spec.missing (facts_in frame.entry) (shape_in frame.entry k) (T.text texts.now) level (view_contract frame.entry.contract.now) variable)) }
{
    match variable {
        Variable::Local(_) => Ok(List::new(alloc)),
        Variable::Global(_) => {
            let refused = lacks(&frame.contract.plain.assigns, variable);
            let made = clauses_without(alloc, frame, texts, level, variable, state)?;
            as_one_unless(alloc, refused, made)
        }
    }
}

// A loop says nothing of variables that are declared inside of it.
fn is_inside(declared: u32, variable: Variable) -> bool
    ensures { (p : Facts) (s : Shape) (texts : terms.Texts) → result ≡ spec.is_inside p s texts declared variable }
{
    match variable {
        Variable::Global(_) => false,
        Variable::Local(number) => declared <= number,
    }
}

// What a loop's set asks of a write.
#[tactic(auto, using(crate::proofs::Given::when_named))]
fn asked_in_loop(
    alloc: Global,
    regions: &[Tree],
    declared: u32,
    variable: Variable,
) -> Result<List<Formula>, NoMemory>
    ensures { (p : Facts) (s : Shape) (texts : terms.Texts) → IfOk result (λ made. map formula_tree made ≡ unless (terms.has_variable (view_trees regions.now) variable) (spec.is_inside p s texts declared variable)) }
{
    let mut made = List::new(alloc);
    if has_variable(regions, variable) {
        return Ok(made);
    }
    if is_inside(declared, variable) {
        return Ok(made);
    }
    made.push(Formula::False)?;
    Ok(made)
}

/// What is asked of a write to a variable.
pub fn write_formulas<'a, T: Texts>(
    alloc: Global,
    frame: Frame<'a>,
    texts: &T,
    point: Point<'a>,
    variable: Variable,
    state: &State,
) -> Result<List<Formula>, NoMemory>
    ensures { (k : ℕ → Kind) (os : List Temporaries) → IfOk result (λ made. map formula_tree made ≡ map (fill (states (view_state state.now))) (spec.write_trees (facts_in frame.entry) (shape_in frame.entry k) (T.text texts.now) (view_contract frame.entry.contract.now) (view_point frame.entry os point.entry) variable)) }
{
    match point.force {
        Force::OfFunction => {
            let level = next_level(point.entry)?;
            missing(alloc, frame, texts, level, variable, state)
        }
        Force::OfLoop(regions, declared) => {
            asked_in_loop(alloc, regions.as_slice(), declared, variable)
        }
    }
}
