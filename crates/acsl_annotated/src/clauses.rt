// Clauses and the annotations of bodies, expanded.
ghost use Rattle.std.specs.Prelude.{◌≡◌, IfOk, map};
ghost use Rattle.acsl_annotated.specs.Annotated as spec;
ghost use Rattle.acsl_clauses.specs.Typed.{view_clause, view_said};
ghost use Rattle.acsl_expand.specs.Expansion.{expanded as expanded_tree, view_all};
ghost use Rattle.acsl_notes.specs.Notes.{view_note};
ghost use Rattle.acsl_trees.specs.Tree.{view_tree, view_trees};

use acsl_clauses::{Said, TypedClause};
use acsl_expand::{Meant, expanded};
use acsl_notes::Note;
use acsl_trees::Tree;
use std::alloc::Global;
use wp_base::{List, NoMemory};

#[tactic(auto, using(crate::proofs::Mapping::mapping_laws))]
fn trees_expanded(alloc: Global, meant: &[Meant], trees: &[Tree]) -> Result<List<Tree>, NoMemory>
    ensures { IfOk result (λ made. view_trees made ≡ map (expanded_tree (view_all meant.now)) (view_trees trees.now)) }
{
    let mut made = Vec::new(alloc);
    for i in 0..trees.len() {
        made.push(expanded(alloc, meant, &trees[i])?)?;
    }
    Ok(List::from_vec(made))
}

fn said_expanded(alloc: Global, meant: &[Meant], said: &Said) -> Result<Said, NoMemory>
    ensures { IfOk result (λ made. view_said made ≡ spec.said_expanded (view_all meant.now) (view_said said.now)) }
{
    match said {
        Said::Claims(role, tree) => Ok(Said::Claims(*role, expanded(alloc, meant, tree)?)),
        Said::Decreases(tree) => Ok(Said::Decreases(expanded(alloc, meant, tree)?)),
        Said::Assigns(regions) => {
            let regions = trees_expanded(alloc, meant, regions.as_slice())?;
            Ok(Said::Assigns(regions))
        }
        Said::Begins(number) => Ok(Said::Begins(*number)),
        Said::Together(group, numbers) => {
            let numbers = Vec::from_slice(alloc, numbers.as_slice())?;
            Ok(Said::Together(*group, List::from_vec(numbers)))
        }
    }
}

fn clause_expanded(
    alloc: Global,
    meant: &[Meant],
    clause: &TypedClause,
) -> Result<TypedClause, NoMemory>
    ensures { IfOk result (λ made. view_clause made ≡ spec.clause_expanded (view_all meant.now) (view_clause clause.now)) }
{
    Ok(TypedClause {
        said: said_expanded(alloc, meant, &clause.said)?,
        line: clause.line,
    })
}

/// Clauses with their definitions expanded.
#[tactic(auto, using(crate::proofs::Mapping::mapping_laws))]
pub(crate) fn clauses_expanded(
    alloc: Global,
    meant: &[Meant],
    clauses: &[TypedClause],
) -> Result<List<TypedClause>, NoMemory>
    ensures { IfOk result (λ made. map view_clause made ≡ map (spec.clause_expanded (view_all meant.now)) (map view_clause clauses.now)) }
{
    let mut made = Vec::new(alloc);
    for i in 0..clauses.len() {
        made.push(clause_expanded(alloc, meant, &clauses[i])?)?;
    }
    Ok(List::from_vec(made))
}

fn note_expanded(alloc: Global, meant: &[Meant], note: &Note) -> Result<Note, NoMemory>
    ensures { IfOk result (λ made. view_note made ≡ spec.note_expanded (view_all meant.now) (view_note note.now)) }
{
    match note {
        Note::Loop(clauses) => {
            let clauses = clauses_expanded(alloc, meant, clauses.as_slice())?;
            Ok(Note::Loop(clauses))
        }
        Note::Assertion(tree) => Ok(Note::Assertion(expanded(alloc, meant, tree)?)),
    }
}

/// The annotations of a body with their definitions expanded.
#[tactic(auto, using(crate::proofs::Mapping::mapping_laws))]
pub(crate) fn notes_expanded(
    alloc: Global,
    meant: &[Meant],
    notes: &[Note],
) -> Result<List<Note>, NoMemory>
    ensures { IfOk result (λ made. map view_note made ≡ map (spec.note_expanded (view_all meant.now)) (map view_note notes.now)) }
{
    let mut made = Vec::new(alloc);
    for i in 0..notes.len() {
        made.push(note_expanded(alloc, meant, &notes[i])?)?;
    }
    Ok(List::from_vec(made))
}
