// The row at a block of a known layout, and what is asked of a block of its table.
ghost use Rattle.std.specs.Prelude.{◌≡◌, ℕ, Some, None, IfOk, MatchOption};
ghost use Rattle.qed_terms.specs.Tree.{Tree, node, two};
ghost use Rattle.qed_terms.specs.declared.head.Head.TheVariants as head;
ghost use Rattle.qed_terms.specs.declared.head.FormOp.TheVariants as form;
ghost use Rattle.term_sketches.specs.Sketches.{Draws};
ghost use Rattle.instance_rows.specs.PairRows as pairs;
ghost use Rattle.drawn_instances.specs.Drawn.{AreDrawn};
ghost use Rattle.block_instances.specs.Asking.{asked_head, asked_rest};
ghost use Rattle.pair_instances.specs.Facts.{had_layout, row_of_pair};

use block_instances::{Asked, answers, asked_at, layout_answer, question};
use drawn_instances::{Instances, instances_of, no_instances, three_ids, two_kids};
use qed_terms::{FormOp, Head, TermStore};
use same_ids::is_same;
use std::alloc::Global;
use term_sketches::{Draft, equal, not_of, or_of, relation, slot};
use wp_base::{Layout, NoMemory};

/// The layout that a block is known to have.
#[tactic(auto, unfolding(crate::specs::Facts::had_layout))]
fn layout_had(head: &Head) -> Option<&Layout>
    ensures { MatchOption result (had_layout head.now ≡ None) (λ l. had_layout head.now ≡ Some l.now) }
{
    match head {
        Head::Form(op) => match op {
            FormOp::Has(layout) => Some(layout),
            _ => None,
        },
        _ => None,
    }
}

#[tactic(auto, using(block_instances::proofs::LayoutLaws::no_memory_drawn))]
fn has_layout(alloc: Global, layout: &Layout) -> Draft
    ensures { (f : ℕ → Tree) → Draws f result (node (head.Form (form.Has layout.now)) (two (f 0) (f 1))) }
{
    let layout = layout.copy(alloc)?;
    relation(alloc, FormOp::Has(layout), slot(0), slot(1))
}

/// Over a table, the number of a block, the block that is asked, and the offset.
fn answer_by_layout(alloc: Global, layout: &Layout, what: Asked) -> Draft
    ensures { (f : ℕ → Tree) → Draws f result (pairs.answer_by_layout layout.now (f 0) (f 1) (asked_head what) (f 2) (asked_rest what (f 3))) }
{
    let there = question(alloc, what, slot(0), 2, 3);
    let answer = layout_answer(alloc, layout, what, 3);
    or_of(
        alloc,
        [
            not_of(alloc, has_layout(alloc, layout)),
            not_of(alloc, equal(alloc, slot(2), slot(1))),
            answers(alloc, what, there, answer),
        ],
    )
}

/// At a block of a known layout, and what is asked of a block of its table: where it is that block, the layout answers.
#[tactic(auto, using(crate::proofs::LayoutRow::layout_laws, block_instances::proofs::AskedLaws::query_laws, drawn_instances::proofs::DrawnLaws::instance_laws))]
pub fn answer_of_layout<S: TermStore>(
    alloc: Global,
    store: &S,
    first: S::Id,
    second: S::Id,
) -> Result<Instances<S::Id>, NoMemory>
    requires first { S.held store.now first }
    requires second { S.held store.now second }
    ensures { IfOk result (λ made. AreDrawn (S.held store.now) (S.tree store.now) made.ids.items made.formulas (row_of_pair pairs.answer_of_layout (S.tree store.now first) (S.tree store.now second))) }
{
    let Some(layout) = layout_had(store.head(first)) else {
        return Ok(no_instances(alloc));
    };
    let Some(kids) = two_kids(store, first) else {
        return Ok(no_instances(alloc));
    };
    let (table, number) = kids;
    let Some(query) = asked_at(store, second) else {
        return Ok(no_instances(alloc));
    };
    if !is_same(store, table, query.table) {
        return Ok(no_instances(alloc));
    }
    let mut ids = three_ids(alloc, table, number, query.block)?;
    ids.push(query.offset)?;
    let made = instances_of(alloc, ids, [answer_by_layout(alloc, layout, query.what)])?;
    Ok(made)
}
