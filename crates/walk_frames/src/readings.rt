// Annotations over the states of labels (ACSL 2.3.1, 2.4.3).
ghost use Rattle.std.specs.Prelude.{◌≡◌, [], ℕ, map, IfOk};
ghost use Rattle.std.specs.Option.{option_map};
ghost use Rattle.acsl_encode.specs.Encode as encode;
ghost use Rattle.acsl_trees.specs.Tree as acsl;
ghost use Rattle.acsl_trees.specs.Tree.{view_tree, view_trees};
ghost use Rattle.annotation_words.specs.Bodies.{body_over, return_over};
ghost use Rattle.program_steps.specs.Terms as terms;
ghost use Rattle.program_trees.specs.View.{view_facts};
ghost use Rattle.qed_terms.specs.View.{formula_tree, term_tree};
ghost use Rattle.step_walks.specs.View.{view_state};
ghost use Rattle.step_walks.specs.Walks.{states};
ghost use Rattle.walk_frames.specs.Labelled as spec;
ghost use Rattle.walk_frames.specs.View.{facts_in, shape_in};
ghost use Rattle.walk_steps.specs.State.{at_or};
ghost use Rattle.wp_base.specs.declared.kinds.Kind.{Kind};

use crate::frames::{Frame, Texts};
use acsl_trees::Tree;
use annotation_words::{Locals, Reading, Seen, SlotAt, claim_of, number_of};
use program_trees::Facts;
use qed_terms::{Formula, Term};
use std::alloc::Global;
use step_walks::State;
use wp_base::{List, NoMemory};

/// What stands for the states of labels, and for `\result`, where there is one.
#[derive(Clone, Copy)]
pub struct Labels<'a> {
    pub here: Seen<'a>,
    pub pre: Seen<'a>,
    pub post: Seen<'a>,
    pub loop_entry: Seen<'a>,
    pub result: Option<SlotAt<'a>>,
}

/// The slots of the present state, or of one that is remembered, the last one being 1.
#[tactic(auto, using(crate::proofs::Given::older, crate::proofs::Given::oldest))]
pub fn slots_at<'a>(state: &'a State, level: usize) -> &'a [Term]
    ensures { map term_tree result.now ≡ at_or [] (states (view_state state.now)) level }
{
    if level == 0 {
        return state.world.slots.as_slice();
    }
    let at = level - 1;
    if at < state.olds.len() {
        state.olds[at].as_slice()
    } else {
        &[]
    }
}

/// In the body of a function, by the levels of the state in force, of the function's entry and of that of the innermost loop.
#[tactic(auto, using(crate::proofs::Given::body_same))]
pub fn body_labels<'a>(
    frame: Frame<'a>,
    state: &'a State,
    here: usize,
    entry: usize,
    loop_entry: usize,
) -> Labels<'a>
    ensures { (k : ℕ → Kind) (texts : terms.Texts) (a : acsl.Tree) → spec.reading_in (facts_in frame.entry) texts result a ≡ body_over (facts_in frame.entry) (shape_in frame.entry k) texts.called (texts.binders a) (at_or [] (states (view_state state.now)) here) (at_or [] (states (view_state state.now)) entry) (at_or [] (states (view_state state.now)) loop_entry) }
{
    let now = slots_at(state, here);
    let before = slots_at(state, entry);
    let entered = slots_at(state, loop_entry);
    Labels {
        here: Seen {
            file: now,
            locals: Locals::Slots(frame.variables, now),
        },
        pre: Seen {
            file: before,
            locals: Locals::Slots(frame.variables, before),
        },
        post: Seen {
            file: now,
            locals: Locals::Slots(frame.variables, now),
        },
        loop_entry: Seen {
            file: entered,
            locals: Locals::Slots(frame.variables, entered),
        },
        result: None,
    }
}

/// The formula of a predicate, `false` where it has none.
pub fn claim_in<'a, T: Texts>(
    alloc: Global,
    facts: &'a Facts,
    texts: &'a T,
    labels: Labels<'a>,
    tree: &Tree,
) -> Result<Formula, NoMemory>
    ensures { IfOk result (λ made. formula_tree made ≡ spec.claimed_in (view_facts facts.now) (T.text texts.now) labels.entry (view_tree tree.now)) }
{
    let Labels {
        here,
        pre,
        post,
        loop_entry,
        result: outcome,
    } = labels;
    let reading = Reading {
        facts,
        here,
        pre,
        post,
        loop_entry,
        result: outcome,
        binders: texts.binders(tree),
        called: texts.called(),
    };
    claim_of(alloc, reading, tree)
}

/// The term of a number, if it has one.
pub fn number_in<'a, T: Texts>(
    alloc: Global,
    facts: &'a Facts,
    texts: &'a T,
    labels: Labels<'a>,
    tree: &Tree,
) -> Result<Option<Term>, NoMemory>
    ensures { IfOk result (λ made. option_map term_tree made ≡ spec.number_in (view_facts facts.now) (T.text texts.now) labels.entry (view_tree tree.now)) }
{
    let Labels {
        here,
        pre,
        post,
        loop_entry,
        result: outcome,
    } = labels;
    let reading = Reading {
        facts,
        here,
        pre,
        post,
        loop_entry,
        result: outcome,
        binders: texts.binders(tree),
        called: texts.called(),
    };
    number_of(alloc, reading, tree)
}

/// `and` of these; one stands alone.
#[tactic(auto, using(crate::proofs::Given::no_part, crate::proofs::Given::only_part, crate::proofs::Given::many_parts))]
pub fn all_of(parts: List<Formula>) -> Formula
    ensures { formula_tree result ≡ encode.all_of (map formula_tree parts) }
{
    if parts.len() > 1 {
        return Formula::and(parts);
    }
    let mut parts = parts.into_vec();
    if parts.is_empty() {
        Formula::True
    } else {
        parts.remove(0)
    }
}

/// What is assumed.
#[tactic(auto, using(crate::proofs::Given::all_gathered, crate::proofs::Given::all_assumed))]
pub fn assumed_in<'a, T: Texts>(
    alloc: Global,
    facts: &'a Facts,
    texts: &'a T,
    labels: Labels<'a>,
    trees: &[Tree],
) -> Result<Formula, NoMemory>
    ensures { IfOk result (λ made. formula_tree made ≡ spec.assumed_in (view_facts facts.now) (T.text texts.now) labels.entry (view_trees trees.now)) }
{
    let mut parts = List::new(alloc);
    for tree in trees {
        let part = claim_in(alloc, facts, texts, labels, tree)?;
        parts.push(part)?;
    }
    Ok(all_of(parts))
}
