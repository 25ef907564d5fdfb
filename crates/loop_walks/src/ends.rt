// What is asked of invariants and of the variant of a loop (ACSL 2.4.2).
ghost use Rattle.std.specs.Prelude.{◌≡◌, ◌++◌, suc, ℕ, List, map, IfOk, OnOk};
ghost use Rattle.std.specs.Option.{option_map};
ghost use Rattle.acsl_encode.specs.Encode as encode;
ghost use Rattle.core_trees.specs.View.{view_claim, view_loop, view_measure};
ghost use Rattle.loop_walks.specs.Parts.{invariant_check, invariant_place, less_check, positive_check};
ghost use Rattle.loop_words.specs.Words as words;
ghost use Rattle.program_steps.specs.Leaves.{fill};
ghost use Rattle.program_steps.specs.Temporaries.{Temporaries};
ghost use Rattle.program_steps.specs.Terms.{body_reading, or_zero};
ghost use Rattle.program_steps.specs.Words as points;
ghost use Rattle.qed_terms.specs.Meaning as sense;
ghost use Rattle.qed_terms.specs.View.{term_tree};
ghost use Rattle.step_walks.specs.View.{view_place, view_state};
ghost use Rattle.step_walks.specs.Walks.{states};
ghost use Rattle.walk_frames.specs.Asked.{view_asked, written_check};
ghost use Rattle.walk_frames.specs.View.{facts_in, shape_in, view_point};
ghost use Rattle.wp_base.specs.declared.kinds.Kind.{Kind};

use crate::points::further;
use core_trees::{Claim, Loop, Measure};
use qed_terms::{FormOp, Formula, Term};
use std::alloc::Global;
use step_walks::{Place, State};
use walk_frames::{
    Asked, Broken, Frame, Point, Texts, broken_place, claim_at, kept_place, number_at,
};
use wp_base::{Line, List, NoMemory};

// ---- invariants

fn place_of(is_kept: bool, line: Line) -> Place
    ensures { view_place result ≡ invariant_place is_kept line }
{
    if is_kept {
        kept_place(line)
    } else {
        broken_place(Broken::Invariant, line)
    }
}

// By the levels of the function's entry and of the loop's.
fn invariant<'a, T: Texts>(
    alloc: Global,
    frame: Frame<'a>,
    texts: &T,
    is_kept: bool,
    entry: usize,
    loop_entry: usize,
    claim: &Claim,
    state: &State,
) -> Result<Asked, NoMemory>
    ensures { (m : sense.World) (k : ℕ → Kind) → IfOk result (λ made. view_asked made ≡ written_check (states (view_state state.now)) (invariant_check (facts_in frame.entry) (shape_in frame.entry k) (T.text texts.now) m is_kept entry loop_entry (view_claim claim.now))) }
{
    let formula = claim_at(
        alloc,
        frame,
        texts,
        0,
        entry,
        loop_entry,
        &claim.what,
        state,
    )?;
    let place = place_of(is_kept, claim.line);
    Ok(Asked {
        place,
        claim: formula,
    })
}

fn add_invariants<'a, T: Texts>(
    alloc: Global,
    frame: Frame<'a>,
    texts: &T,
    is_kept: bool,
    entry: usize,
    loop_entry: usize,
    claims: &[Claim],
    state: &State,
    made: &mut List<Asked>,
) -> Result<(), NoMemory>
    ensures { (m : sense.World) (k : ℕ → Kind) → OnOk result (map view_asked made.new ≡ map view_asked made.old ++ map (written_check (states (view_state state.now))) (map (invariant_check (facts_in frame.entry) (shape_in frame.entry k) (T.text texts.now) m is_kept entry loop_entry) (map view_claim claims.now))) }
{
    for claim in claims {
        made.push(invariant(
            alloc, frame, texts, is_kept, entry, loop_entry, claim, state,
        )?)?;
    }
    Ok(())
}

/// Where the loop is entered, and its entry is remembered.
pub(crate) fn entry_checks<'a, T: Texts>(
    alloc: Global,
    frame: Frame<'a>,
    texts: &T,
    point: Point<'a>,
    l: &Loop,
    state: &State,
) -> Result<List<Asked>, NoMemory>
    ensures { (m : sense.World) (k : ℕ → Kind) (os : List Temporaries) → IfOk result (λ made. map view_asked made ≡ map (written_check (states (view_state state.now))) (map (words.entry_check (facts_in frame.entry) (shape_in frame.entry k) (T.text texts.now) m (view_point frame.entry os point.entry)) (view_loop l.now).invariants)) }
{
    let entry = further(point.entry, 2)?;
    let mut made = List::new(alloc);
    let claims = l.invariants.as_slice();
    add_invariants(
        alloc, frame, texts, false, entry, 1, claims, state, &mut made,
    )?;
    Ok(made)
}

// ---- the variant

// Its term in the state of this level; one without a term counts as 0.
fn measure_at<'a, T: Texts>(
    alloc: Global,
    frame: Frame<'a>,
    texts: &T,
    here: usize,
    entry: usize,
    measure: &Measure,
    state: &State,
) -> Result<Term, NoMemory>
    ensures { (k : ℕ → Kind) → IfOk result (λ made. term_tree made ≡ fill (states (view_state state.now)) (or_zero (encode.term_of (body_reading (facts_in frame.entry) (shape_in frame.entry k) (T.text texts.now) here entry 2 (view_measure measure.now).what) (view_measure measure.now).what))) }
{
    let found = number_at(alloc, frame, texts, here, entry, 2, &measure.what, state)?;
    match found {
        Some(term) => Ok(term),
        None => Ok(Term::number(0)),
    }
}

// At the head it was at least 0.
fn positive<'a, T: Texts>(
    alloc: Global,
    frame: Frame<'a>,
    texts: &T,
    entry: usize,
    measure: &Measure,
    state: &State,
) -> Result<Asked, NoMemory>
    ensures { (m : sense.World) (k : ℕ → Kind) (pt : points.Point) → entry ≡ suc (suc (suc pt.entry)) → IfOk result (λ made. view_asked made ≡ written_check (states (view_state state.now)) (positive_check (facts_in frame.entry) (shape_in frame.entry k) (T.text texts.now) m pt (view_measure measure.now))) }
{
    let before = measure_at(alloc, frame, texts, 1, entry, measure, state)?;
    let claim = Formula::relation(alloc, FormOp::AtMost, Term::number(0), before)?;
    let place = broken_place(Broken::VariantPositive, measure.line);
    Ok(Asked { place, claim })
}

// It is smaller now.
fn less<'a, T: Texts>(
    alloc: Global,
    frame: Frame<'a>,
    texts: &T,
    entry: usize,
    measure: &Measure,
    state: &State,
) -> Result<Asked, NoMemory>
    ensures { (m : sense.World) (k : ℕ → Kind) (pt : points.Point) → entry ≡ suc (suc (suc pt.entry)) → IfOk result (λ made. view_asked made ≡ written_check (states (view_state state.now)) (less_check (facts_in frame.entry) (shape_in frame.entry k) (T.text texts.now) m pt (view_measure measure.now))) }
{
    let now = measure_at(alloc, frame, texts, 0, entry, measure, state)?;
    let before = measure_at(alloc, frame, texts, 1, entry, measure, state)?;
    let claim = Formula::relation(alloc, FormOp::Less, now, before)?;
    let place = broken_place(Broken::VariantLess, measure.line);
    Ok(Asked { place, claim })
}

fn add_variant<'a, T: Texts>(
    alloc: Global,
    frame: Frame<'a>,
    texts: &T,
    entry: usize,
    variant: &Option<Measure>,
    state: &State,
    made: &mut List<Asked>,
) -> Result<(), NoMemory>
    ensures { (m : sense.World) (k : ℕ → Kind) (pt : points.Point) → entry ≡ suc (suc (suc pt.entry)) → OnOk result (map view_asked made.new ≡ map view_asked made.old ++ map (written_check (states (view_state state.now))) (words.variant_checks (facts_in frame.entry) (shape_in frame.entry k) (T.text texts.now) m pt (option_map view_measure variant.now))) }
{
    if let Some(measure) = variant {
        made.push(positive(alloc, frame, texts, entry, measure, state)?)?;
        made.push(less(alloc, frame, texts, entry, measure, state)?)?;
    }
    Ok(())
}

/// Where a pass ends, and the loop's entry and the head are remembered.
pub(crate) fn end_checks<'a, T: Texts>(
    alloc: Global,
    frame: Frame<'a>,
    texts: &T,
    point: Point<'a>,
    l: &Loop,
    state: &State,
) -> Result<List<Asked>, NoMemory>
    ensures { (m : sense.World) (k : ℕ → Kind) (os : List Temporaries) → IfOk result (λ made. map view_asked made ≡ map (written_check (states (view_state state.now))) (words.end_checks (facts_in frame.entry) (shape_in frame.entry k) (T.text texts.now) m (view_point frame.entry os point.entry) (view_loop l.now))) }
{
    let entry = further(point.entry, 3)?;
    let mut made = List::new(alloc);
    let claims = l.invariants.as_slice();
    add_invariants(
        alloc, frame, texts, true, entry, 2, claims, state, &mut made,
    )?;
    add_variant(alloc, frame, texts, entry, &l.variant, state, &mut made)?;
    Ok(made)
}
