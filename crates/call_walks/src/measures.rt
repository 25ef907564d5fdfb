// Between functions that call each other the measure goes down (ACSL 2.5.2).
ghost use Rattle.std.specs.Prelude.{◌≡◌, ℕ, pos, map, IfOk};
ghost use Rattle.std.specs.Option.{option_map};
ghost use Rattle.acsl_encode.specs.Encode as encode;
ghost use Rattle.acsl_trees.specs.Tree as acsl;
ghost use Rattle.acsl_trees.specs.Tree.{view_tree};
ghost use Rattle.call_walks.specs.Claimed as spec;
ghost use Rattle.core_trees.specs.View.{view_measure};
ghost use Rattle.program_steps.specs.Leaves.{fill};
ghost use Rattle.program_steps.specs.Terms.{entry_reading, or_zero};
ghost use Rattle.program_trees.specs.Files as files;
ghost use Rattle.qed_terms.specs.Tree.{at_most, less, num};
ghost use Rattle.qed_terms.specs.View.{formula_tree, term_tree};
ghost use Rattle.step_walks.specs.View.{view_state};
ghost use Rattle.step_walks.specs.Walks.{states};
ghost use Rattle.walk_frames.specs.Labelled.{number_in as number_over};
ghost use Rattle.walk_frames.specs.View.{facts_in, shape_in};
ghost use Rattle.wp_base.specs.declared.kinds.Kind.{Kind};

use core_trees::Measure;
use qed_terms::{FormOp, Formula, Term};
use std::alloc::Global;
use step_walks::State;
use walk_frames::{Frame, Labels, Texts, number_at, number_in};
use wp_base::{List, NoMemory};

// ---- clusters

// The cluster of a function.
#[tactic(auto, using(crate::proofs::Found::cluster_at, crate::proofs::Found::cluster_none))]
fn cluster_of(clusters: &[Option<u32>], function: u32) -> Option<u32>
    ensures { result ≡ files.at clusters.now function }
{
    let at = function as usize;
    if at < clusters.len() {
        clusters[at]
    } else {
        None
    }
}

fn same_cluster(cluster: Option<u32>, other: Option<u32>) -> bool
    ensures { result ≡ files.same_cluster cluster other }
{
    match cluster {
        Some(number) => match other {
            Some(second) => number == second,
            None => false,
        },
        None => false,
    }
}

/// Two functions call each other.
pub(crate) fn are_in_cluster(clusters: &List<Option<u32>>, caller: u32, callee: u32) -> bool
    ensures { result ≡ files.in_cluster_of clusters.now caller callee }
{
    let first = cluster_of(clusters.as_slice(), caller);
    let second = cluster_of(clusters.as_slice(), callee);
    same_cluster(first, second)
}

// ---- measures

// A measure without a term counts as 0.
fn number_or_zero(alloc: Global, number: &Option<Term>) -> Result<Term, NoMemory>
    ensures { IfOk result (λ term. term_tree term ≡ or_zero (option_map term_tree number.now)) }
{
    match number {
        Some(term) => term.copy(alloc),
        None => Ok(Term::number(0)),
    }
}

// A measure isn't negative.
fn not_negative(alloc: Global, number: &Option<Term>) -> Result<Formula, NoMemory>
    ensures { IfOk result (λ made. formula_tree made ≡ at_most (num (pos 0)) (or_zero (option_map term_tree number.now))) }
{
    let term = number_or_zero(alloc, number)?;
    Formula::relation(alloc, FormOp::AtMost, Term::number(0), term)
}

// The one now is below the old one.
fn below(alloc: Global, old: &Option<Term>, now: &Option<Term>) -> Result<Formula, NoMemory>
    ensures { IfOk result (λ made. formula_tree made ≡ less (or_zero (option_map term_tree now.now)) (or_zero (option_map term_tree old.now))) }
{
    let second = number_or_zero(alloc, now)?;
    Formula::relation(alloc, FormOp::Less, second, number_or_zero(alloc, old)?)
}

// The one now is below the old one, which isn't negative.
fn lower_of(alloc: Global, old: &Option<Term>, now: &Option<Term>) -> Result<Formula, NoMemory>
    ensures { IfOk result (λ made. formula_tree made ≡ spec.lower_tree (option_map term_tree old.now) (option_map term_tree now.now)) }
{
    let positive = not_negative(alloc, old)?;
    Formula::both(alloc, positive, below(alloc, old, now)?)
}

// That of the caller where it was entered, in the state of this level, and that of the function where it is entered.
fn lower_at<'a, T: Texts>(
    alloc: Global,
    frame: Frame<'a>,
    texts: &'a T,
    level: usize,
    entered: Labels<'a>,
    own: &Measure,
    other: &Measure,
    state: &'a State,
) -> Result<Formula, NoMemory>
    ensures { (k : ℕ → Kind) → IfOk result (λ made. formula_tree made ≡ spec.lower_tree (option_map (fill (states (view_state state.now))) (encode.term_of (entry_reading (facts_in frame.entry) (shape_in frame.entry k) (T.text texts.now) level (view_tree own.now.what)) (view_tree own.now.what))) (number_over (facts_in frame.entry) (T.text texts.now) entered.entry (view_tree other.now.what))) }
{
    let old = number_at(alloc, frame, texts, level, level, level, &own.what, state)?;
    let now = number_in(alloc, frame.facts, texts, entered, &other.what)?;
    let made = lower_of(alloc, &old, &now)?;
    Ok(made)
}

/// What is asked of the measures, if both functions have one and call each other.
pub(crate) fn lower<'a, T: Texts>(
    alloc: Global,
    frame: Frame<'a>,
    texts: &'a T,
    level: usize,
    entered: Labels<'a>,
    is_in_cluster: bool,
    measure: &Option<Measure>,
    state: &'a State,
) -> Result<List<Formula>, NoMemory>
    ensures { (k : ℕ → Kind) → IfOk result (λ made. map formula_tree made ≡ spec.lower_in (λ (a : acsl.Tree). option_map (fill (states (view_state state.now))) (encode.term_of (entry_reading (facts_in frame.entry) (shape_in frame.entry k) (T.text texts.now) level a) a)) (number_over (facts_in frame.entry) (T.text texts.now) entered.entry) is_in_cluster (option_map view_measure frame.entry.contract.now.decreases) (option_map view_measure measure.now)) }
{
    let mut made = List::new(alloc);
    if !is_in_cluster {
        return Ok(made);
    }
    let Some(own) = &frame.contract.decreases else {
        return Ok(made);
    };
    let Some(other) = measure else {
        return Ok(made);
    };
    let formula = lower_at(alloc, frame, texts, level, entered, own, other, state)?;
    made.push(formula)?;
    Ok(made)
}
