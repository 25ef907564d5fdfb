// Formulas drawn over ids of a store.
ghost use Rattle.std.specs.Prelude.{◌≡◌, ℕ, List, [], ◌∷◌, map, All, IfOk};
ghost use Rattle.qed_terms.specs.Tree.{Tree};
ghost use Rattle.term_sketches.specs.Sketches.{DrawEach, sketch_tree, slots};
ghost use Rattle.drawn_instances.specs.Drawn.{AreDrawn};

use std::alloc::Global;
use term_sketches::{Draft, Sketch, all_of};
use wp_base::{List, NoMemory};

/// Formulas of a row, and the ids in their slots.
#[derive(Drop)]
pub struct Instances<I> {
    pub ids: Vec<I>,
    pub formulas: List<Sketch>,
}

/// No formula.
pub fn no_instances<I>(alloc: Global) -> Instances<I>
    ensures ids { result.ids.items ≡ [] }
    ensures formulas { result.formulas ≡ [] }
{
    Instances {
        ids: Vec::new(alloc),
        formulas: List::new(alloc),
    }
}

/// One id.
pub fn one_id<I: Copy>(alloc: Global, first: I) -> Result<Vec<I>, NoMemory>
    ensures { IfOk result (λ ids. ids.items ≡ first ∷ []) }
{
    let mut ids = Vec::with_capacity(alloc, 3)?;
    ids.push(first)?;
    Ok(ids)
}

/// Two ids in order.
pub fn two_ids<I: Copy>(alloc: Global, first: I, second: I) -> Result<Vec<I>, NoMemory>
    ensures { IfOk result (λ ids. ids.items ≡ first ∷ second ∷ []) }
{
    let mut ids = one_id(alloc, first)?;
    ids.push(second)?;
    Ok(ids)
}

/// Three ids in order.
pub fn three_ids<I: Copy>(alloc: Global, first: I, second: I, third: I) -> Result<Vec<I>, NoMemory>
    ensures { IfOk result (λ ids. ids.items ≡ first ∷ second ∷ third ∷ []) }
{
    let mut ids = two_ids(alloc, first, second)?;
    ids.push(third)?;
    Ok(ids)
}

/// Formulas with these ids in their slots.
pub fn instances_of<I: Copy, const N: usize>(
    alloc: Global,
    ids: Vec<I>,
    drafts: [Draft; N],
) -> Result<Instances<I>, NoMemory>
    ensures ids { IfOk result (λ made. made.ids.items ≡ ids.items) }
    ensures formulas { (f : ℕ → Tree) → (ts : List Tree) → DrawEach f drafts.entry ts → IfOk result (λ made. map (sketch_tree f) made.formulas ≡ ts) }
{
    let formulas = all_of(alloc, drafts)?;
    Ok(Instances { ids, formulas })
}
