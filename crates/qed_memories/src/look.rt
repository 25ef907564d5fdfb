// Memories and tables by what they were made from.
ghost use Rattle.std.specs.Prelude.{◌≡◌, map};
ghost use Rattle.qed_terms.specs.Tree.{node, trees_of};
ghost use Rattle.qed_terms.specs.View.{term_tree};
ghost use Rattle.qed_terms.specs.declared.head.Head.TheVariants as h;
ghost use Rattle.qed_memories.specs.View.{LooksLikeMemory, LooksLikeTable};

use qed_terms::{Term, TermOp};
use wp_base::Layout;

/// A store by its memory, block, offset and value, or another memory.
#[derive(Clone, Copy)]
pub enum MemoryNode<'a> {
    Store(&'a Term, &'a Term, &'a Term, &'a Term),
    Other,
}

fn store_of<'a>(op: &TermOp, kids: &'a [Term]) -> MemoryNode<'a>
    ensures { LooksLikeMemory result (node (h.Term op.now) (trees_of (map term_tree kids.now))) }
{
    match op {
        TermOp::Store => {
            if kids.len() != 4 {
                return MemoryNode::Other;
            }
            MemoryNode::Store(&kids[0], &kids[1], &kids[2], &kids[3])
        }
        TermOp::Add
        | TermOp::Sub
        | TermOp::Mul
        | TermOp::Neg
        | TermOp::Div
        | TermOp::Mod
        | TermOp::Wrap(_)
        | TermOp::ShiftLeft
        | TermOp::ShiftRight
        | TermOp::BitAnd
        | TermOp::BitOr
        | TermOp::BitXor
        | TermOp::BitNot
        | TermOp::Load
        | TermOp::Count
        | TermOp::Len
        | TermOp::Alloc(_)
        | TermOp::Grow => MemoryNode::Other,
    }
}

/// A look at a memory.
#[tactic(auto, using(qed_terms::proofs::Equations::tree_laws))]
pub fn memory_node(memory: &Term) -> MemoryNode<'_>
    ensures { LooksLikeMemory result (term_tree memory.now) }
{
    match memory {
        Term::Op(op, kids) => store_of(op, kids.as_slice()),
        Term::Num(_) => MemoryNode::Other,
        Term::Var(_, _) => MemoryNode::Other,
        Term::Ite(_, _, _) => MemoryNode::Other,
        Term::App(_, _) => MemoryNode::Other,
    }
}

/// A table with one more block, a table that was grown to a count, or another one.
#[derive(Clone, Copy)]
pub enum TableNode<'a> {
    Made(&'a Layout, &'a Term),
    Grown(&'a Term, &'a Term),
    Other,
}

fn built_of<'a>(op: &'a TermOp, kids: &'a [Term]) -> TableNode<'a>
    ensures { LooksLikeTable result (node (h.Term op.now) (trees_of (map term_tree kids.now))) }
{
    match op {
        TermOp::Alloc(layout) => {
            if kids.len() != 1 {
                return TableNode::Other;
            }
            TableNode::Made(layout, &kids[0])
        }
        TermOp::Grow => {
            if kids.len() != 2 {
                return TableNode::Other;
            }
            TableNode::Grown(&kids[0], &kids[1])
        }
        TermOp::Add
        | TermOp::Sub
        | TermOp::Mul
        | TermOp::Neg
        | TermOp::Div
        | TermOp::Mod
        | TermOp::Wrap(_)
        | TermOp::ShiftLeft
        | TermOp::ShiftRight
        | TermOp::BitAnd
        | TermOp::BitOr
        | TermOp::BitXor
        | TermOp::BitNot
        | TermOp::Load
        | TermOp::Count
        | TermOp::Len
        | TermOp::Store => TableNode::Other,
    }
}

/// A look at a table.
#[tactic(auto, using(qed_terms::proofs::Equations::tree_laws))]
pub fn table_node(table: &Term) -> TableNode<'_>
    ensures { LooksLikeTable result (term_tree table.now) }
{
    match table {
        Term::Op(op, kids) => built_of(op, kids.as_slice()),
        Term::Num(_) => TableNode::Other,
        Term::Var(_, _) => TableNode::Other,
        Term::Ite(_, _, _) => TableNode::Other,
        Term::App(_, _) => TableNode::Other,
    }
}
