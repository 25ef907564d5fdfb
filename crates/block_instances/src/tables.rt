// The row at what is asked of a block of a table with one more block.
ghost use Rattle.std.specs.Prelude.{◌≡◌, ℕ, Some, None, MatchOption, IfOk};
ghost use Rattle.qed_terms.specs.Tree as tree;
ghost use Rattle.qed_terms.specs.Tree.{Tree};
ghost use Rattle.qed_memories.specs.Memories.{count_tree};
ghost use Rattle.term_sketches.specs.Sketches.{Draws};
ghost use Rattle.instance_rows.specs.Rows as rows;
ghost use Rattle.drawn_instances.specs.Drawn.{AreDrawn, row_at};
ghost use Rattle.block_instances.specs.Asking.{asked_head, asked_rest, made_layout};

use crate::layouts::layout_answer;
use crate::questions::{Asked, answers, asked_at, question};
use drawn_instances::{Instances, instances_of, no_instances, one_kid, three_ids};
use qed_terms::{Head, TermOp, TermStore};
use std::alloc::Global;
use term_sketches::{Draft, and_of, equal, not_of, or_of, over, slot};
use wp_base::{Layout, NoMemory};

/// How many blocks a table has.
pub fn count(alloc: Global, table: usize) -> Draft
    ensures { (f : ℕ → Tree) → Draws f result (count_tree (f table)) }
{
    over(alloc, Head::Term(TermOp::Count), [slot(table)])
}

// The layout with which a table got a block more.
#[tactic(auto, unfolding(crate::specs::Asking::made_layout))]
fn layout_made(head: &Head) -> Option<&Layout>
    ensures { MatchOption result (made_layout head.now ≡ None) (λ l. made_layout head.now ≡ Some l.now) }
{
    match head {
        Head::Term(op) => match op {
            TermOp::Alloc(layout) => Some(layout),
            _ => None,
        },
        _ => None,
    }
}

#[tactic(auto, using(crate::proofs::LayoutLaws::no_memory_drawn))]
fn with_block(alloc: Global, layout: &Layout, table: usize) -> Draft
    ensures { (f : ℕ → Tree) → Draws f result (rows.alloc_tree layout.now (f table)) }
{
    let layout = layout.copy(alloc)?;
    over(alloc, Head::Term(TermOp::Alloc(layout)), [slot(table)])
}

// Whether the block is the one that was made.
fn is_new(alloc: Global, table: usize, block: usize) -> Draft
    ensures { (f : ℕ → Tree) → Draws f result (tree.equal (f block) (count_tree (f table))) }
{
    equal(alloc, slot(block), count(alloc, table))
}

fn answer_by_block(
    alloc: Global,
    layout: &Layout,
    what: Asked,
    table: usize,
    block: usize,
    offset: usize,
) -> Draft
    ensures { (f : ℕ → Tree) → Draws f result (rows.answer_by_block layout.now (f table) (asked_head what) (f block) (asked_rest what (f offset))) }
{
    let made = question(alloc, what, with_block(alloc, layout, table), block, offset);
    let here = answers(
        alloc,
        what,
        made,
        layout_answer(alloc, layout, what, offset),
    );
    let made = question(alloc, what, with_block(alloc, layout, table), block, offset);
    let before = question(alloc, what, slot(table), block, offset);
    let elsewhere = answers(alloc, what, made, before);
    or_of(
        alloc,
        [
            and_of(alloc, [is_new(alloc, table, block), here]),
            and_of(
                alloc,
                [not_of(alloc, is_new(alloc, table, block)), elsewhere],
            ),
        ],
    )
}

/// At what is asked of a block of a table with one more block: that block answers by its layout, each other one as before.
#[tactic(auto, using(crate::proofs::AllocLaws::alloc_laws, crate::proofs::AskedLaws::query_laws, drawn_instances::proofs::DrawnLaws::instance_laws))]
pub fn answer_of_alloc<S: TermStore>(
    alloc: Global,
    store: &S,
    id: S::Id,
) -> Result<Instances<S::Id>, NoMemory>
    requires { S.held store.now id }
    ensures { IfOk result (λ made. AreDrawn (S.held store.now) (S.tree store.now) made.ids.items made.formulas (row_at rows.answer_of_alloc (S.tree store.now id))) }
{
    let Some(query) = asked_at(store, id) else {
        return Ok(no_instances(alloc));
    };
    let Some(layout) = layout_made(store.head(query.table)) else {
        return Ok(no_instances(alloc));
    };
    let Some(table) = one_kid(store, query.table) else {
        return Ok(no_instances(alloc));
    };
    let ids = three_ids(alloc, table, query.block, query.offset)?;
    let drawn = instances_of(
        alloc,
        ids,
        [answer_by_block(alloc, layout, query.what, 0, 1, 2)],
    )?;
    Ok(drawn)
}
