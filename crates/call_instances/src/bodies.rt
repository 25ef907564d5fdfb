// Bodies of functions drawn, with arguments in slots for their parameters.
ghost use Rattle.std.specs.Prelude.{◌≡◌, ℕ, map, option_map, IfOk};
ghost use Rattle.qed_terms.specs.Nodes.{node_tree};
ghost use Rattle.qed_terms.specs.Tree.{Tree};
ghost use Rattle.qed_terms.specs.View.{term_tree};
ghost use Rattle.term_sketches.specs.Sketches.{Draws, sketch_tree};
ghost use Rattle.qed_calls.specs.Calls.{argument_for, with_arguments};
ghost use Rattle.qed_calls.specs.View.{params};
ghost use Rattle.call_instances.specs.Bodies.{argument_at, in_slots, placed_tree};

use crate::heads::{is_param, node_head};
use qed_terms::{Head, Node, Sort, Term};
use std::alloc::Global;
use term_sketches::{Draft, Sketch, over_all};
use wp_base::{List, NoMemory, Str};

// The slot of the argument for the parameter of this name and sort.
#[tactic(auto, using(crate::proofs::BodyLaws::argument_laws))]
fn slot_for(names: &[Term], count: usize, name: &Str, sort: Sort) -> Option<usize>
    ensures { (f : ℕ → Tree) → option_map f result ≡ argument_for (params names.now) (in_slots f 0 count) name.now sort }
{
    for at in 0..names.len() {
        if at >= count {
            return None;
        }
        if is_param(&names[at], name, sort) {
            return Some(at);
        }
    }
    None
}

fn slot_at(names: &[Term], count: usize, head: &Head) -> Option<usize>
    ensures { (f : ℕ → Tree) → option_map f result ≡ argument_at (params names.now) (in_slots f 0 count) head.now }
{
    match head {
        Head::Var(name, sort) => slot_for(names, count, name, *sort),
        _ => None,
    }
}

// The slot that takes the place of a head, or the head over these.
#[tactic(auto, using(crate::proofs::BodyLaws::place_laws))]
fn placed_over(names: &[Term], count: usize, head: Head, kids: List<Sketch>) -> Sketch
    ensures { (f : ℕ → Tree) → sketch_tree f result ≡ placed_tree (params names.now) (in_slots f 0 count) head (map (sketch_tree f) kids) }
{
    match slot_at(names, count, &head) {
        Some(at) => Sketch::Slot(at),
        None => over_all(head, kids),
    }
}

fn placed_node(
    alloc: Global,
    names: &[Term],
    count: usize,
    node: Node<'_>,
) -> Result<Sketch, NoMemory>
    ensures { IfOk result (λ s. (f : ℕ → Tree) → sketch_tree f s ≡ with_arguments (params names.now) (in_slots f 0 count) (node_tree node.entry)) }
{
    let mut kids = List::new(alloc);
    let kid_count = node.kid_count();
    for at in 0..kid_count {
        let kid = placed_node(alloc, names, count, node.kid(at))?;
        kids.push(kid)?;
    }
    let head = node_head(alloc, node)?;
    Ok(placed_over(names, count, head, kids))
}

/// A body, with the terms in the first slots for its parameters.
#[tactic(auto, using(crate::proofs::BodyLaws::body_drawn, crate::proofs::BodyLaws::body_wanted))]
pub fn placed_body(alloc: Global, names: &[Term], count: usize, body: &Term) -> Draft
    ensures { (f : ℕ → Tree) → Draws f result (with_arguments (params names.now) (in_slots f 0 count) (term_tree body.now)) }
{
    let made = placed_node(alloc, names, count, Node::Term(body))?;
    Ok(made)
}
