// The next annotation of a body.
ghost use Rattle.std.specs.Prelude.{◌≡◌, IfOk, map};
ghost use Rattle.acsl_clauses.specs.Typed.{view_clause};
ghost use Rattle.acsl_expand.specs.Expansion.{nought as no_tree};
ghost use Rattle.acsl_trees.specs.Tree.{view_tree};
ghost use Rattle.c_programs.specs.Bodies as spec;
ghost use Rattle.placed_bodies.specs.Into.{notes_left, view_notes};

use crate::left::Left;
use acsl_clauses::TypedClause;
use acsl_notes::Note;
use acsl_trees::{Head, Tree};
use std::alloc::Global;
use wp_base::{List, NoMemory};

pub(crate) fn clauses_at(notes: &[Note]) -> &[TypedClause]
    ensures { map view_clause result.now ≡ spec.clauses_at (view_notes notes.now) }
{
    match notes.first() {
        Some(Note::Loop(clauses)) => clauses.as_slice(),
        Some(Note::Assertion(_)) => &[],
        None => &[],
    }
}

#[tactic(auto, using(acsl_trees::proofs::Equations::tree_laws))]
fn nought(alloc: Global) -> Tree
    ensures { view_tree result ≡ no_tree }
{
    Tree {
        head: Head::Number(0),
        kids: List::new(alloc),
    }
}

pub(crate) fn assertion_at(alloc: Global, notes: &[Note]) -> Result<Tree, NoMemory>
    ensures { IfOk result (λ tree. view_tree tree ≡ spec.assertion_at (view_notes notes.now)) }
{
    match notes.first() {
        Some(Note::Assertion(tree)) => tree.copy(alloc),
        Some(Note::Loop(_)) => Ok(nought(alloc)),
        None => Ok(nought(alloc)),
    }
}

/// Behind the next annotation.
pub(crate) fn behind(left: Left<'_>) -> Left<'_>
    ensures notes { notes_left result ≡ spec.behind (notes_left left.entry) }
    ensures declared { result.declared ≡ left.entry.declared }
{
    match left.notes.split_first() {
        Some((_, notes)) => Left {
            notes,
            declared: left.declared,
        },
        None => left,
    }
}
