// What is asked of a block of a table.
ghost use Rattle.std.specs.Prelude.{◌≡◌, ℕ, List, [], MatchOption};
ghost use Rattle.qed_terms.specs.declared.head.Head.{Head as HeadValue};
ghost use Rattle.qed_terms.specs.Tree.{Tree, Trees, head_of, kids_in};
ghost use Rattle.term_sketches.specs.Sketches.{Draws};
ghost use Rattle.instance_rows.specs.Rows as rows;
ghost use Rattle.block_instances.specs.Asking.{IsAsked, asked_head, question};

use drawn_instances::{Seen, look, three_kids, two_kids};
use qed_terms::{FormOp, Head, TermOp, TermStore};
use std::alloc::Global;
use term_sketches::{Draft, equal, equivalent, over, slot};
use wp_base::CellKind;

/// What is asked of a block.
#[derive(Clone, Copy)]
pub enum Asked {
    Read(CellKind),
    Write(CellKind),
    Live,
    Length,
}

/// What is asked, with the ids of the table, the block and the offset. Where no cell is asked for, the block stands for the offset.
#[derive(Clone, Copy)]
pub struct Query<I> {
    pub what: Asked,
    pub table: I,
    pub block: I,
    pub offset: I,
}

/// What a node asks of a block.
#[tactic(auto, using(crate::proofs::AskedLaws::asked_laws))]
pub fn asked_at<S: TermStore>(store: &S, id: S::Id) -> Option<Query<S::Id>>
    requires { S.held store.now id }
    ensures { MatchOption result ((row : HeadValue → Tree → Tree → Trees → List Tree) → rows.at_asked row (head_of (S.tree store.now id)) (kids_in (S.tree store.now id)) ≡ []) (λ q. IsAsked (S.held store.now) (S.tree store.now) (S.tree store.now id) q) }
{
    match look(store, id) {
        Seen::Read(kind) => {
            let what = Asked::Read(kind);
            match three_kids(store, id) {
                Some((table, block, offset)) => Some(Query {
                    what,
                    table,
                    block,
                    offset,
                }),
                None => None,
            }
        }
        Seen::Write(kind) => {
            let what = Asked::Write(kind);
            match three_kids(store, id) {
                Some((table, block, offset)) => Some(Query {
                    what,
                    table,
                    block,
                    offset,
                }),
                None => None,
            }
        }
        Seen::Live => {
            let what = Asked::Live;
            match two_kids(store, id) {
                Some((table, block)) => Some(Query {
                    what,
                    table,
                    block,
                    offset: block,
                }),
                None => None,
            }
        }
        Seen::Length => {
            let what = Asked::Length;
            match two_kids(store, id) {
                Some((table, block)) => Some(Query {
                    what,
                    table,
                    block,
                    offset: block,
                }),
                None => None,
            }
        }
        _ => None,
    }
}

/// What is asked, over a table.
pub fn question(alloc: Global, what: Asked, table: Draft, block: usize, offset: usize) -> Draft
    ensures { (f : ℕ → Tree) → (t : Tree) → Draws f table t → Draws f result (question what t (f block) (f offset)) }
{
    match what {
        Asked::Read(kind) => over(
            alloc,
            Head::Form(FormOp::Read(kind)),
            [table, slot(block), slot(offset)],
        ),
        Asked::Write(kind) => over(
            alloc,
            Head::Form(FormOp::Write(kind)),
            [table, slot(block), slot(offset)],
        ),
        Asked::Live => over(alloc, Head::Form(FormOp::Live), [table, slot(block)]),
        Asked::Length => over(alloc, Head::Term(TermOp::Len), [table, slot(block)]),
    }
}

/// That two answers are the same.
pub fn answers(alloc: Global, what: Asked, left: Draft, right: Draft) -> Draft
    ensures { (f : ℕ → Tree) → (t u : Tree) → Draws f left t → Draws f right u → Draws f result (rows.answers (asked_head what) t u) }
{
    match what {
        Asked::Length => equal(alloc, left, right),
        Asked::Read(_) => equivalent(alloc, left, right),
        Asked::Write(_) => equivalent(alloc, left, right),
        Asked::Live => equivalent(alloc, left, right),
    }
}
