// What is known at the head of a turn: what the sets of behaviors let stay, and the invariants (ACSL 2.4.2).
ghost use Rattle.std.specs.Prelude.{◌≡◌, ◌++◌, suc, ℕ, Bool, List, length, map, IfOk, OnOk};
ghost use Rattle.std.specs.Option.{option_map};
ghost use Rattle.acsl_trees.specs.Tree.{view_trees};
ghost use Rattle.c_runs.specs.Program as program;
ghost use Rattle.core_trees.specs.View.{view_claim, view_loop};
ghost use Rattle.loop_walks.specs.Parts.{head_trees};
ghost use Rattle.loop_words.specs.Sets as sets;
ghost use Rattle.loop_words.specs.Words as words;
ghost use Rattle.program_steps.specs.Leaves.{fill};
ghost use Rattle.program_steps.specs.Staying as spec;
ghost use Rattle.program_steps.specs.Temporaries.{Temporaries};
ghost use Rattle.program_steps.specs.Words as points;
ghost use Rattle.program_trees.specs.View.{view_behavior, view_contract};
ghost use Rattle.qed_terms.specs.Tree as tree;
ghost use Rattle.qed_terms.specs.View.{formula_tree};
ghost use Rattle.step_walks.specs.View.{view_state};
ghost use Rattle.step_walks.specs.Walks.{states};
ghost use Rattle.walk_frames.specs.View.{facts_in, shape_in, view_point};
ghost use Rattle.walk_live.specs.Bits.{bits};
ghost use Rattle.wp_base.specs.declared.kinds.Kind.{Kind};

use crate::changes::{is_in, number_of};
use crate::points::further;
use acsl_trees::Tree;
use core_trees::{Claim, Loop};
use program_trees::Behavior;
use qed_terms::{FormOp, Formula};
use std::alloc::Global;
use step_walks::State;
use typed_prog::Variable;
use value_words::{read_slot, value_slot};
use walk_frames::{Force, Frame, Point, Texts, assumed_at, claim_at, lacks, slots_at};
use wp_base::{List, NoMemory};

// ---- what stays

// A variable of the file holds what it did where the loop was entered.
fn stays(alloc: Global, variable: usize, state: &State) -> Result<Formula, NoMemory>
    ensures { IfOk result (λ made. formula_tree made ≡ fill (states (view_state state.now)) (spec.stays variable)) }
{
    let slot = value_slot(variable)?;
    let now = read_slot(alloc, slots_at(state, 0), slot)?;
    let before = read_slot(alloc, slots_at(state, 1), slot)?;
    let formula = Formula::relation(alloc, FormOp::Equal, now, before)?;
    Ok(formula)
}

// So it is where this is assumed.
fn stays_under(
    alloc: Global,
    assumed: &Formula,
    variable: usize,
    state: &State,
) -> Result<Formula, NoMemory>
    ensures { IfOk result (λ made. formula_tree made ≡ tree.imp_of (formula_tree assumed.now) (fill (states (view_state state.now)) (spec.stays variable))) }
{
    let assumed = assumed.copy(alloc)?;
    let formula = stays(alloc, variable, state)?;
    Formula::implication(alloc, assumed, formula)
}

// A variable that changes, and that the set doesn't name.
fn add_stay(
    alloc: Global,
    assumed: &Formula,
    assigns: &Option<List<Tree>>,
    changes: bool,
    variable: usize,
    state: &State,
    made: &mut List<Formula>,
) -> Result<(), NoMemory>
    ensures { (a : tree.Tree) (f : ℕ → Bool) → formula_tree assumed.now ≡ fill (states (view_state state.now)) a → changes ≡ f variable → OnOk result (map formula_tree made.new ≡ map formula_tree made.old ++ map (fill (states (view_state state.now))) (spec.stay_of a (option_map view_trees assigns.now) f variable)) }
{
    let number = number_of(variable)?;
    if !changes || !lacks(assigns, Variable::Global(number)) {
        return Ok(());
    }
    made.push(stays_under(alloc, assumed, variable, state)?)?;
    Ok(())
}

// By a behavior, under what it assumes; these variables of the file change.
fn add_stays(
    alloc: Global,
    assumed: &Formula,
    assigns: &Option<List<Tree>>,
    changing: &[bool],
    state: &State,
    made: &mut List<Formula>,
) -> Result<(), NoMemory>
    ensures { (a : tree.Tree) (f : ℕ → Bool) (vs : List program.Variable) → formula_tree assumed.now ≡ fill (states (view_state state.now)) a → changing.now ≡ bits (length vs) f → OnOk result (map formula_tree made.new ≡ map formula_tree made.old ++ map (fill (states (view_state state.now))) (spec.stays_from a (option_map view_trees assigns.now) f 0 vs)) }
{
    for variable in 0..changing.len() {
        let changes = is_in(changing, variable);
        add_stay(alloc, assumed, assigns, changes, variable, state, made)?;
    }
    Ok(())
}

// By one of the function's behaviors; its entry is the state of this level.
fn add_behavior<'a, T: Texts>(
    alloc: Global,
    frame: Frame<'a>,
    texts: &T,
    level: usize,
    behavior: &Behavior,
    changing: &[bool],
    state: &State,
    made: &mut List<Formula>,
) -> Result<(), NoMemory>
    ensures { (k : ℕ → Kind) (f : ℕ → Bool) → changing.now ≡ bits (length (facts_in frame.entry).globals) f → OnOk result (map formula_tree made.new ≡ map formula_tree made.old ++ map (fill (states (view_state state.now))) (spec.stays_from (words.assumed_at (facts_in frame.entry) (shape_in frame.entry k) (T.text texts.now) level (view_behavior behavior.now)) (view_behavior behavior.now).assigns f 0 (facts_in frame.entry).globals)) }
{
    let assumed = assumed_at(
        alloc,
        frame,
        texts,
        level,
        behavior.assumes.as_slice(),
        state,
    )?;
    add_stays(alloc, &assumed, &behavior.assigns, changing, state, made)
}

// By all of them.
fn add_behaviors<'a, T: Texts>(
    alloc: Global,
    frame: Frame<'a>,
    texts: &T,
    level: usize,
    changing: &[bool],
    state: &State,
    made: &mut List<Formula>,
) -> Result<(), NoMemory>
    ensures { (k : ℕ → Kind) (f : ℕ → Bool) → changing.now ≡ bits (length (facts_in frame.entry).globals) f → OnOk result (map formula_tree made.new ≡ map formula_tree made.old ++ map (fill (states (view_state state.now))) (spec.all_stay (words.assumed_at (facts_in frame.entry) (shape_in frame.entry k) (T.text texts.now) level) f (facts_in frame.entry).globals (view_contract frame.entry.contract.now).behaviors)) }
{
    for behavior in frame.contract.behaviors.as_slice() {
        add_behavior(alloc, frame, texts, level, behavior, changing, state, made)?;
    }
    Ok(())
}

// Where the function's clauses are in force inside of the loop.
fn stay_formulas<'a, T: Texts>(
    alloc: Global,
    frame: Frame<'a>,
    texts: &T,
    point: Point<'a>,
    l: &Loop,
    changing: &[bool],
    state: &State,
) -> Result<List<Formula>, NoMemory>
    ensures { (k : ℕ → Kind) (os : List Temporaries) → changing.now ≡ bits (length (facts_in frame.entry).globals) (sets.file_changes (view_contract frame.entry.contract.now) (view_point frame.entry os point.entry) (view_loop l.now)) → IfOk result (λ made. map formula_tree made ≡ map (fill (states (view_state state.now))) (words.stay_trees (facts_in frame.entry) (shape_in frame.entry k) (T.text texts.now) (view_contract frame.entry.contract.now) (view_point frame.entry os point.entry) (view_loop l.now))) }
{
    let mut made = List::new(alloc);
    match &l.assigns {
        Some(_) => Ok(made),
        None => match point.force {
            Force::OfLoop(_, _) => Ok(made),
            Force::OfFunction => {
                let level = further(point.entry, 2)?;
                add_behaviors(alloc, frame, texts, level, changing, state, &mut made)?;
                Ok(made)
            }
        },
    }
}

// ---- invariants

fn add_invariants<'a, T: Texts>(
    alloc: Global,
    frame: Frame<'a>,
    texts: &T,
    entry: usize,
    claims: &[Claim],
    state: &State,
    made: &mut List<Formula>,
) -> Result<(), NoMemory>
    ensures { (k : ℕ → Kind) (pt : points.Point) → entry ≡ suc (suc pt.entry) → OnOk result (map formula_tree made.new ≡ map formula_tree made.old ++ map (fill (states (view_state state.now))) (map (words.head_tree (facts_in frame.entry) (shape_in frame.entry k) (T.text texts.now) pt) (map view_claim claims.now))) }
{
    for claim in claims {
        made.push(claim_at(alloc, frame, texts, 0, entry, 1, &claim.what, state)?)?;
    }
    Ok(())
}

/// What is known at the head, where these variables of the file change.
pub(crate) fn head_formulas<'a, T: Texts>(
    alloc: Global,
    frame: Frame<'a>,
    texts: &T,
    point: Point<'a>,
    l: &Loop,
    changing: &[bool],
    state: &State,
) -> Result<List<Formula>, NoMemory>
    ensures { (k : ℕ → Kind) (os : List Temporaries) → changing.now ≡ bits (length (facts_in frame.entry).globals) (sets.file_changes (view_contract frame.entry.contract.now) (view_point frame.entry os point.entry) (view_loop l.now)) → IfOk result (λ made. map formula_tree made ≡ map (fill (states (view_state state.now))) (head_trees (facts_in frame.entry) (shape_in frame.entry k) (T.text texts.now) (view_contract frame.entry.contract.now) (view_point frame.entry os point.entry) (view_loop l.now))) }
{
    let entry = further(point.entry, 2)?;
    let mut made = stay_formulas(alloc, frame, texts, point, l, changing, state)?;
    let claims = l.invariants.as_slice();
    add_invariants(alloc, frame, texts, entry, claims, state, &mut made)?;
    Ok(made)
}
