// Sketches are drawn.
ghost use Rattle.std.specs.Prelude.{◌≡◌, ℕ, List, Ok, map, IfOk};
ghost use Rattle.qed_terms.specs.Tree.{Tree, Trees, node, trees_of, two};
ghost use Rattle.qed_terms.specs.Tree as tree;
ghost use Rattle.qed_terms.specs.declared.head.Head.TheVariants as head;
ghost use Rattle.term_sketches.specs.Sketches.{DrawAll, DrawEach, Draws, sketch_tree};

use crate::sketch::{Draft, Sketch};
use qed_terms::{FormOp, Head, TermOp};
use std::alloc::Global;
use wp_base::{List, NoMemory};

/// The tree in a slot.
#[tactic(auto, using(crate::proofs::Drawn::slot_drawn))]
pub fn slot(at: usize) -> Draft
    ensures { (f : ℕ → Tree) → Draws f result (f at) }
{
    Ok(Sketch::Slot(at))
}

/// A number.
#[tactic(auto, using(crate::proofs::Drawn::number_drawn))]
pub fn number(alloc: Global, value: i128) -> Draft
    ensures { (f : ℕ → Tree) → Draws f result (tree.num value) }
{
    Ok(Sketch::Over(Head::Num(value), List::new(alloc)))
}

// The sketches of these drafts, where there was memory for all of them.
fn sketches_of(alloc: Global, drafts: Vec<Draft>) -> Result<List<Sketch>, NoMemory>
    ensures { IfOk result (λ made. drafts.items ≡ map Ok made) }
{
    let mut made = List::new(alloc);
    for draft in drafts {
        made.push(draft?)?;
    }
    Ok(made)
}

/// The sketches of these drafts, where there was memory for all of them.
#[tactic(auto, using(crate::proofs::Drawn::all_drawn))]
pub fn all_of<const N: usize>(alloc: Global, drafts: [Draft; N]) -> Result<List<Sketch>, NoMemory>
    ensures { (f : ℕ → Tree) → (ts : List Tree) → DrawEach f drafts.entry ts → IfOk result (λ made. map (sketch_tree f) made ≡ ts) }
{
    let drafts = Vec::from_array(alloc, drafts)?;
    let made = sketches_of(alloc, drafts)?;
    Ok(made)
}

/// A head over these.
#[tactic(auto, using(crate::proofs::Drawn::each_of_all, crate::proofs::Drawn::over_drawn, crate::proofs::Drawn::want_drawn))]
pub fn over<const N: usize>(alloc: Global, head: Head, kids: [Draft; N]) -> Draft
    ensures { (f : ℕ → Tree) → (ts : Trees) → DrawAll f kids.entry ts → Draws f result (node head ts) }
{
    let kids = all_of(alloc, kids)?;
    Ok(Sketch::Over(head, kids))
}

/// A head over all of these.
#[tactic(auto, using(crate::proofs::Drawn::sketch_tree_Over))]
pub fn over_all(head: Head, kids: List<Sketch>) -> Sketch
    ensures { (f : ℕ → Tree) → sketch_tree f result ≡ node head (trees_of (map (sketch_tree f) kids)) }
{
    Sketch::Over(head, kids)
}

// ---- terms

/// An operator over two terms.
pub fn operation(alloc: Global, op: TermOp, left: Draft, right: Draft) -> Draft
    ensures { (f : ℕ → Tree) → (t u : Tree) → Draws f left t → Draws f right u → Draws f result (node (head.Term op) (two t u)) }
{
    over(alloc, Head::Term(op), [left, right])
}

// ---- formulas

/// A relation of two terms.
pub fn relation(alloc: Global, op: FormOp, left: Draft, right: Draft) -> Draft
    ensures { (f : ℕ → Tree) → (t u : Tree) → Draws f left t → Draws f right u → Draws f result (node (head.Form op) (two t u)) }
{
    over(alloc, Head::Form(op), [left, right])
}

pub fn equal(alloc: Global, left: Draft, right: Draft) -> Draft
    ensures { (f : ℕ → Tree) → (t u : Tree) → Draws f left t → Draws f right u → Draws f result (tree.equal t u) }
{
    relation(alloc, FormOp::Equal, left, right)
}

pub fn at_most(alloc: Global, left: Draft, right: Draft) -> Draft
    ensures { (f : ℕ → Tree) → (t u : Tree) → Draws f left t → Draws f right u → Draws f result (tree.at_most t u) }
{
    relation(alloc, FormOp::AtMost, left, right)
}

pub fn less(alloc: Global, left: Draft, right: Draft) -> Draft
    ensures { (f : ℕ → Tree) → (t u : Tree) → Draws f left t → Draws f right u → Draws f result (tree.less t u) }
{
    relation(alloc, FormOp::Less, left, right)
}

/// Two formulas of which the one is true exactly where the other is.
pub fn equivalent(alloc: Global, left: Draft, right: Draft) -> Draft
    ensures { (f : ℕ → Tree) → (t u : Tree) → Draws f left t → Draws f right u → Draws f result (node head.Iff (two t u)) }
{
    over(alloc, Head::Iff, [left, right])
}

pub fn not_of(alloc: Global, part: Draft) -> Draft
    ensures { (f : ℕ → Tree) → (t : Tree) → Draws f part t → Draws f result (tree.not_of t) }
{
    over(alloc, Head::Not, [part])
}

pub fn and_of<const N: usize>(alloc: Global, parts: [Draft; N]) -> Draft
    ensures { (f : ℕ → Tree) → (ts : Trees) → DrawAll f parts.entry ts → Draws f result (node head.And ts) }
{
    over(alloc, Head::And, parts)
}

pub fn or_of<const N: usize>(alloc: Global, parts: [Draft; N]) -> Draft
    ensures { (f : ℕ → Tree) → (ts : Trees) → DrawAll f parts.entry ts → Draws f result (node head.Or ts) }
{
    over(alloc, Head::Or, parts)
}
