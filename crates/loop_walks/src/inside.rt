// That a loop's own set lies inside the set in force (ACSL 2.4.2). Sets name plain variables alone.
ghost use Rattle.std.specs.Prelude.{◌≡◌, ◌++◌, ◌||◌, not, ℕ, suc, List, map, IfOk, OnOk};
ghost use Rattle.std.specs.Option.{option_map};
ghost use Rattle.acsl_trees.specs.Tree.{view_trees};
ghost use Rattle.c_runs.specs.Program as program;
ghost use Rattle.core_trees.specs.View.{view_loop};
ghost use Rattle.loop_walks.specs.Parts.{lacking_clauses, outside_trees};
ghost use Rattle.loop_words.specs.Sets as spec;
ghost use Rattle.plain_runs.specs.Fitting as fitting;
ghost use Rattle.program_steps.specs.Leaves.{fill};
ghost use Rattle.program_steps.specs.Temporaries.{Temporaries};
ghost use Rattle.program_steps.specs.Terms as terms;
ghost use Rattle.program_steps.specs.Words as words;
ghost use Rattle.program_trees.specs.View.{view_behavior, view_contract};
ghost use Rattle.qed_terms.specs.View.{formula_tree};
ghost use Rattle.step_walks.specs.View.{view_state};
ghost use Rattle.step_walks.specs.Walks.{states};
ghost use Rattle.walk_frames.specs.View.{facts_in, shape_in, view_point};
ghost use Rattle.walk_steps.specs.Forms.{Slots};
ghost use Rattle.wp_base.specs.declared.kinds.Kind.{Kind};

use crate::points::further;
use acsl_trees::Tree;
use core_trees::Loop;
use program_trees::Behavior;
use qed_terms::Formula;
use std::alloc::Global;
use step_walks::State;
use typed_prog::Variable;
use walk_frames::{
    Force, Frame, Point, Texts, as_one_unless, claim_under, has_variable, lacks, region_variable,
};
use wp_base::{List, NoMemory};

// ---- the clauses of a function

// A variable of the file that the clause doesn't name.
fn lacks_file(assigns: &Option<List<Tree>>, variable: Option<Variable>) -> bool
    ensures { result ≡ spec.lacks_file (option_map view_trees assigns.now) variable }
{
    match variable {
        Some(Variable::Global(number)) => lacks(assigns, Variable::Global(number)),
        Some(Variable::Local(_)) => false,
        None => false,
    }
}

#[tactic(auto, using(crate::proofs::Outside::lacking_found, crate::proofs::Outside::lacking_next, crate::proofs::Outside::lacking_none))]
fn lacks_some(assigns: &Option<List<Tree>>, regions: &[Tree]) -> bool
    ensures { result ≡ spec.lacks_some (option_map view_trees assigns.now) (view_trees regions.now) }
{
    for region in regions {
        if lacks_file(assigns, region_variable(region)) {
            return true;
        }
    }
    false
}

// A clause that doesn't name each variable of the file, behind those before.
fn add_lacking<'a, T: Texts>(
    alloc: Global,
    frame: Frame<'a>,
    texts: &T,
    level: usize,
    is_plain: bool,
    behavior: &Behavior,
    regions: &[Tree],
    state: &State,
    made: &mut List<Formula>,
) -> Result<(), NoMemory>
    ensures { (k : ℕ → Kind) → OnOk result (map formula_tree made.new ≡ map formula_tree made.old ++ map (fill (states (view_state state.now))) (spec.lacking_in (facts_in frame.entry) (shape_in frame.entry k) (T.text texts.now) level is_plain (view_behavior behavior.now) (view_trees regions.now))) }
{
    if !lacks_some(&behavior.assigns, regions) {
        return Ok(());
    }
    let formula = claim_under(
        alloc,
        frame,
        texts,
        level,
        is_plain,
        behavior,
        Formula::False,
        state,
    )?;
    made.push(formula)?;
    Ok(())
}

// All such clauses.
#[tactic(auto, using(crate::proofs::Lacking::lacking_end))]
fn lacking<'a, T: Texts>(
    alloc: Global,
    frame: Frame<'a>,
    texts: &T,
    level: usize,
    regions: &[Tree],
    state: &State,
) -> Result<List<Formula>, NoMemory>
    ensures { (k : ℕ → Kind) → IfOk result (λ made. map formula_tree made ≡ map (fill (states (view_state state.now))) (lacking_clauses (facts_in frame.entry) (shape_in frame.entry k) (T.text texts.now) level (view_contract frame.entry.contract.now) (view_trees regions.now))) }
{
    let mut made = List::new(alloc);
    add_lacking(
        alloc,
        frame,
        texts,
        level,
        true,
        &frame.contract.plain,
        regions,
        state,
        &mut made,
    )?;
    for behavior in frame.contract.behaviors.as_slice() {
        add_lacking(
            alloc, frame, texts, level, false, behavior, regions, state, &mut made,
        )?;
    }
    Ok(made)
}

// ---- the set of a loop around

fn is_neither(first: bool, second: bool) -> bool
    ensures { result ≡ not (first || second) }
{
    !(first || second)
}

// A variable that the set of the loop around doesn't name, and that isn't declared in it.
fn is_outside(names: &[Tree], declared: u32, variable: Option<Variable>) -> bool
    ensures { (p : program.Facts) (s : fitting.Shape) (texts : terms.Texts) → result ≡ spec.is_outside p s texts (view_trees names.now) declared variable }
{
    match variable {
        Some(Variable::Global(number)) => {
            is_neither(has_variable(names, Variable::Global(number)), false)
        }
        Some(Variable::Local(number)) => {
            let is_inside = declared <= number;
            is_neither(has_variable(names, Variable::Local(number)), is_inside)
        }
        None => false,
    }
}

#[tactic(auto, using(crate::proofs::Outside::outside_found, crate::proofs::Outside::outside_next, crate::proofs::Outside::outside_none))]
fn some_outside(names: &[Tree], declared: u32, regions: &[Tree]) -> bool
    ensures { (p : program.Facts) (s : fitting.Shape) (texts : terms.Texts) → result ≡ spec.some_outside p s texts (view_trees names.now) declared (view_trees regions.now) }
{
    for region in regions {
        if is_outside(names, declared, region_variable(region)) {
            return true;
        }
    }
    false
}

// ---- what is asked

// In a loop.
#[tactic(auto, using(qed_terms::proofs::Equations::tree_laws))]
fn outside(
    alloc: Global,
    names: &[Tree],
    declared: u32,
    regions: &[Tree],
) -> Result<List<Formula>, NoMemory>
    ensures { (ss : List Slots) (p : program.Facts) (s : fitting.Shape) (texts : terms.Texts) → IfOk result (λ made. map formula_tree made ≡ map (fill ss) (outside_trees p s texts (view_trees names.now) declared (view_trees regions.now))) }
{
    let mut made = List::new(alloc);
    if !some_outside(names, declared, regions) {
        return Ok(made);
    }
    made.push(Formula::False)?;
    Ok(made)
}

// In the body of the function.
#[tactic(auto, using(crate::proofs::Lacking::clauses_joined))]
fn in_body<'a, T: Texts>(
    alloc: Global,
    frame: Frame<'a>,
    texts: &T,
    level: usize,
    regions: &[Tree],
    state: &State,
) -> Result<List<Formula>, NoMemory>
    ensures { (k : ℕ → Kind) → IfOk result (λ made. map formula_tree made ≡ map (fill (states (view_state state.now))) (words.as_one_unless (spec.lacks_some (view_contract frame.entry.contract.now).plain.assigns (view_trees regions.now)) (lacking_clauses (facts_in frame.entry) (shape_in frame.entry k) (T.text texts.now) level (view_contract frame.entry.contract.now) (view_trees regions.now)))) }
{
    let clauses = lacking(alloc, frame, texts, level, regions, state)?;
    let refused = lacks_some(&frame.contract.plain.assigns, regions);
    let made = as_one_unless(alloc, refused, clauses)?;
    Ok(made)
}

// Of these regions.
fn within<'a, T: Texts>(
    alloc: Global,
    frame: Frame<'a>,
    texts: &T,
    point: Point<'a>,
    regions: &[Tree],
    state: &State,
) -> Result<List<Formula>, NoMemory>
    ensures { (k : ℕ → Kind) (os : List Temporaries) → IfOk result (λ made. map formula_tree made ≡ map (fill (states (view_state state.now))) (spec.within (facts_in frame.entry) (shape_in frame.entry k) (T.text texts.now) (suc point.entry.entry) (view_contract frame.entry.contract.now) (view_point frame.entry os point.entry).force (view_trees regions.now))) }
{
    let level = further(point.entry, 1)?;
    match point.force {
        Force::OfFunction => {
            let made = in_body(alloc, frame, texts, level, regions, state)?;
            Ok(made)
        }
        Force::OfLoop(names, declared) => {
            let made = outside(alloc, names.as_slice(), declared, regions)?;
            Ok(made)
        }
    }
}

/// Of a loop; one without a set of its own asks for nothing.
pub(crate) fn inside_formulas<'a, T: Texts>(
    alloc: Global,
    frame: Frame<'a>,
    texts: &T,
    point: Point<'a>,
    l: &Loop,
    state: &State,
) -> Result<List<Formula>, NoMemory>
    ensures { (k : ℕ → Kind) (os : List Temporaries) → IfOk result (λ made. map formula_tree made ≡ map (fill (states (view_state state.now))) (spec.inside_trees (facts_in frame.entry) (shape_in frame.entry k) (T.text texts.now) (view_contract frame.entry.contract.now) (view_point frame.entry os point.entry) (view_loop l.now))) }
{
    match &l.assigns {
        None => Ok(List::new(alloc)),
        Some(regions) => {
            let made = within(alloc, frame, texts, point, regions.as_slice(), state)?;
            Ok(made)
        }
    }
}
