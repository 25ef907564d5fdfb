// The rows at a cell that may be written or read.
ghost use Rattle.std.specs.Prelude.{ℕ, IfOk};
ghost use Rattle.qed_terms.specs.Tree.{Tree, node, three, two};
ghost use Rattle.qed_terms.specs.declared.head.Head.TheVariants as head;
ghost use Rattle.term_sketches.specs.Sketches.{Draws};
ghost use Rattle.instance_rows.specs.Rows as rows;
ghost use Rattle.drawn_instances.specs.Drawn.{AreDrawn, row_at};
ghost use Rattle.node_instances.specs.Formulas.{lies_within, placed_where_readable, readable_where_writable};

use block_instances::count;
use drawn_instances::{Instances, Seen, instances_of, look, no_instances, three_ids, three_kids};
use qed_terms::{FormOp, Head, TermOp, TermStore};
use std::alloc::Global;
use term_sketches::{
    Draft, and_of, at_most, less, not_of, number, operation, or_of, over, relation, slot,
};
use wp_base::{CellKind, NoMemory};

// What is said of a cell.
fn of_cell(alloc: Global, op: FormOp, table: usize, block: usize, offset: usize) -> Draft
    ensures { (f : ℕ → Tree) → Draws f result (node (head.Form op) (three (f table) (f block) (f offset))) }
{
    over(
        alloc,
        Head::Form(op),
        [slot(table), slot(block), slot(offset)],
    )
}

fn within(alloc: Global, table: usize, block: usize, offset: usize) -> Draft
    ensures { (f : ℕ → Tree) → Draws f result (lies_within (f table) (f block) (f offset)) }
{
    let live = relation(alloc, FormOp::Live, slot(table), slot(block));
    let length = operation(alloc, TermOp::Len, slot(table), slot(block));
    and_of(
        alloc,
        [
            live,
            at_most(alloc, number(alloc, 0), slot(offset)),
            less(alloc, slot(offset), length),
            at_most(alloc, number(alloc, 1), slot(block)),
            less(alloc, slot(block), count(alloc, table)),
        ],
    )
}

fn readable(alloc: Global, kind: CellKind, table: usize, block: usize, offset: usize) -> Draft
    ensures { (f : ℕ → Tree) → Draws f result (readable_where_writable kind (f table) (f block) (f offset)) }
{
    let write = of_cell(alloc, FormOp::Write(kind), table, block, offset);
    let read = of_cell(alloc, FormOp::Read(kind), table, block, offset);
    or_of(alloc, [not_of(alloc, write), read])
}

fn placed(alloc: Global, kind: CellKind, table: usize, block: usize, offset: usize) -> Draft
    ensures { (f : ℕ → Tree) → Draws f result (placed_where_readable kind (f table) (f block) (f offset)) }
{
    let read = of_cell(alloc, FormOp::Read(kind), table, block, offset);
    or_of(
        alloc,
        [not_of(alloc, read), within(alloc, table, block, offset)],
    )
}

/// At a cell that may be written: it may be read.
#[tactic(auto, using(crate::proofs::TableLaws::write_laws, drawn_instances::proofs::DrawnLaws::instance_laws))]
pub fn read_of_write<S: TermStore>(
    alloc: Global,
    store: &S,
    id: S::Id,
) -> Result<Instances<S::Id>, NoMemory>
    requires { S.held store.now id }
    ensures { IfOk result (λ made. AreDrawn (S.held store.now) (S.tree store.now) made.ids.items made.formulas (row_at rows.read_of_write (S.tree store.now id))) }
{
    let Seen::Write(kind) = look(store, id) else {
        return Ok(no_instances(alloc));
    };
    let Some((table, block, offset)) = three_kids(store, id) else {
        return Ok(no_instances(alloc));
    };
    let ids = three_ids(alloc, table, block, offset)?;
    let made = instances_of(alloc, ids, [readable(alloc, kind, 0, 1, 2)])?;
    Ok(made)
}

/// At a cell that may be read: it lies in a live block.
#[tactic(auto, using(crate::proofs::TableLaws::read_laws, drawn_instances::proofs::DrawnLaws::instance_laws))]
pub fn place_of_read<S: TermStore>(
    alloc: Global,
    store: &S,
    id: S::Id,
) -> Result<Instances<S::Id>, NoMemory>
    requires { S.held store.now id }
    ensures { IfOk result (λ made. AreDrawn (S.held store.now) (S.tree store.now) made.ids.items made.formulas (row_at rows.place_of_read (S.tree store.now id))) }
{
    let Seen::Read(kind) = look(store, id) else {
        return Ok(no_instances(alloc));
    };
    let Some((table, block, offset)) = three_kids(store, id) else {
        return Ok(no_instances(alloc));
    };
    let ids = three_ids(alloc, table, block, offset)?;
    let made = instances_of(alloc, ids, [placed(alloc, kind, 0, 1, 2)])?;
    Ok(made)
}
